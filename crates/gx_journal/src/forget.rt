// Changes are forgotten.
ghost use Rattle.std.specs.Prelude.{◌≡◌, ◌≢◌, ◌<◌, ℕ, false, Some, None};
ghost use Rattle.gx_device.specs.Content.{Content, block_of};
ghost use Rattle.gx_frames.specs.Pool.{Resident, find_page};
ghost use Rattle.gx_layout.specs.Layout.{home};
ghost use Rattle.gx_journal.specs.Working.{size_in, page_in, IsCachedIn, IsUnchangedIn};

use crate::commit::clear;
use crate::working::WorkingPages;
use gx_frames::Frames;

// A page leaves the frames, where it stands in one.
fn leave(frames: &mut Frames, p: u32)
    requires below { p < frames.old.pages }
    ensures gone { find_page p frames.new.resident ≡ None }
    ensures others { (q : ℕ) → p ≢ q →
        find_page q frames.new.resident ≡ find_page q frames.old.resident }
    ensures pages { frames.new.pages ≡ frames.old.pages }
    ensures frames { frames.new.frames ≡ frames.old.frames }
{
    if frames.is_resident(p) {
        frames.evict(p);
    }
}

// Only pages that haven't changed stay in the frames.
fn forget_changed(frames: &mut Frames)
    ensures kept { (q : ℕ) (r : Resident) → find_page q frames.new.resident ≡ Some r →
        find_page q frames.old.resident ≡ Some r }
    ensures unchanged { (q : ℕ) (r : Resident) → find_page q frames.new.resident ≡ Some r →
        r.changed ≡ false }
    ensures pages { frames.new.pages ≡ frames.old.pages }
    ensures frames { frames.new.frames ≡ frames.old.frames }
{
    let _victim = frames.victim();
    frames.forget_changes();
}

/// Forgets all changes: each page is as at home. The device isn't called.
pub(crate) fn forget(working: &mut WorkingPages)
    ensures same { (size P : ℕ) (c : Content) → IsCachedIn size P c working.old → (q : ℕ) →
        page_in size P c working.new q ≡ block_of c.now (home size P q) }
    ensures cached { (size P : ℕ) (c : Content) → IsCachedIn size P c working.old →
        IsCachedIn size P c working.new }
    ensures unchanged { IsUnchangedIn working.new }
    ensures long { size_in working.new ≡ size_in working.old }
    ensures frames { working.new.frames.frames ≡ working.old.frames.frames }
{
    forget_changed(&mut working.frames);
    for i in 0..working.listed.len() {
        leave(&mut working.frames, working.listed[i]);
    }
    clear(&mut working.spilled, &mut working.listed);
}
