// What is in memory of the working pages.
ghost use Rattle.std.specs.Prelude.{◌≡◌, ◌≤◌, [], false, length, replicate, vec_capacity, IfOk};
ghost use Rattle.gx_layout.specs.Layout.{pages_of};
ghost use Rattle.gx_journal.specs.Sources.{IsListed};
ghost use Rattle.gx_layout.specs.declared.places.TheConstants.{MAX_BLOCKS};

use gx_device::NoMemory;
use gx_frames::Frames;
use gx_layout::page_count;
use std::alloc::Global;

// The working pages: some stand in frames, the spilled ones of the others in their slots, and the
// rest at home.
#[derive(Drop)]
pub(crate) struct WorkingPages {
    pub(crate) frames: Frames,
    pub(crate) spilled: Vec<bool>,
    pub(crate) listed: Vec<u32>,
    ghost few: { length spilled.items ≤ MAX_BLOCKS },
    ghost pages: { frames.pages ≡ length spilled.items },
    ghost named: { IsListed spilled.items listed.items },
    ghost space: { length spilled.items ≤ vec_capacity listed },
}

impl WorkingPages {
    /// All pages at home, over a device of so many blocks, and memory for so many frames.
    pub(crate) fn make(alloc: Global, frames: u32, blocks: u32) -> Result<WorkingPages, NoMemory>
        requires least { 8 ≤ frames }
        requires most { frames ≤ 1024 }
        requires limit { blocks ≤ MAX_BLOCKS }
        ensures count { IfOk result (λ working. length working.spilled.items ≡ pages_of blocks) }
        ensures frames { IfOk result (λ working. working.frames.frames ≡ frames) }
        ensures absent { IfOk result (λ working. working.frames.resident ≡ []) }
        ensures unspilled { IfOk result (λ working. working.spilled.items
            ≡ replicate (length working.spilled.items) false) }
    {
        let pages = page_count(blocks);
        Ok(WorkingPages {
            frames: Frames::make(alloc, frames, pages)?,
            spilled: vec![in alloc; false; pages as usize]?,
            listed: Vec::with_capacity(alloc, pages as usize)?,
        })
    }

    /// The number of pages.
    pub(crate) fn count(&self) -> u32
        ensures { result ≡ length self.now.spilled.items }
    {
        self.spilled.len() as u32
    }
}
