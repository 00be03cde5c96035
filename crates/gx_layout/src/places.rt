// Where the blocks of a device stand, by how many there are.
ghost use Rattle.std.specs.Prelude.{◌≡◌, ◌≤◌, ◌<◌};
ghost use Rattle.gx_layout.specs.Places.{layout_of, bitmap_blocks, first_text, head_blocks, table_pages, pages_of, slot, home};
ghost use Rattle.gx_layout.specs.declared.places.TheConstants.{MAX_BLOCKS};

use gx_device::BLOCK_LEN;

/// The most blocks of a device of the first layout: those before its pages, and a slot and a home
/// for each bit of the one block of its bitmap. A larger device has the second layout.
pub const FIRST_MOST: u32 = 65_543;

/// The most blocks of a device. Of so many the last one isn't used: the others are those before
/// the pages, and a slot and a home for each bit of the eight blocks of the bitmap.
pub const MAX_BLOCKS: u32 = 524_303;

/// How many blocks hold the texts.
pub(crate) const TEXT_BLOCKS: u32 = 4;

/// How many pages the table of owners has for each block of the bitmap.
pub(crate) const TABLES: u32 = 16;

/// The bytes of the blocks that hold the texts.
pub const TEXT_AREA_LEN: usize = TEXT_BLOCKS as usize * BLOCK_LEN;

/// The bytes of the length of a text, as it is written.
pub(crate) const LENGTH_LEN: usize = 2;

/// The most bytes of the two texts: with their lengths they fill the text blocks.
pub const MAX_TEXTS_LEN: usize = TEXT_AREA_LEN - 2 * LENGTH_LEN;

/// The layout of a device of so many blocks: 1 or 2.
pub fn layout(size: u32) -> u8
    ensures { result ≡ layout_of size }
{
    if size <= FIRST_MOST { 1 } else { 2 }
}

/// How many blocks the bitmap of a device of so many blocks has.
#[tactic(auto, unfolding(crate::specs::Places::bitmap_blocks))]
pub(crate) fn bitmap_blocks(size: u32) -> u32
    ensures count { result ≡ bitmap_blocks size }
    ensures few { result ≤ 8 }
{
    if size <= FIRST_MOST { 1 } else { 8 }
}

/// The first of the blocks that hold the texts, of a device of so many blocks. Before it stand
/// those of the magic, the gate and the bitmap.
pub(crate) fn first_text(size: u32) -> u32
    ensures block { result ≡ first_text size }
    ensures few { result ≤ 10 }
{
    2 + bitmap_blocks(size)
}

/// How many blocks stand before the pages, of a device of so many blocks.
pub fn head_blocks(size: u32) -> u32
    ensures count { result ≡ head_blocks size }
    ensures few { result ≤ 14 }
{
    first_text(size) + TEXT_BLOCKS
}

/// How many pages a device of so many blocks has, 0 where it is too small for one.
pub fn page_count(size: u32) -> u32
    ensures { result ≡ pages_of size }
{
    size.saturating_sub(head_blocks(size)) / 2
}

/// How many of the pages are the table of owners, of a device of so many blocks.
pub fn table_pages(size: u32) -> u32
    ensures { result ≡ table_pages size }
{
    TABLES * bitmap_blocks(size)
}

/// The block that is the slot of a page, of a device of so many blocks.
pub fn slot(size: u32, page: u32) -> u32
    requires size { size ≤ MAX_BLOCKS }
    requires page { page < size }
    ensures { result ≡ slot size page }
{
    head_blocks(size) + page
}

/// The block that is the home of a page, of a device of so many blocks and so many pages.
pub fn home(size: u32, pages: u32, page: u32) -> u32
    requires size { size ≤ MAX_BLOCKS }
    requires pages { pages ≤ size }
    requires page { page < size }
    ensures { result ≡ home size pages page }
{
    head_blocks(size) + pages + page
}
