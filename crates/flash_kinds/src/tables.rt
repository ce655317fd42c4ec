ghost use Rattle.std.specs.Prelude.{◌≡◌, ◌+◌, ◌*◌, ◌<◌, ◌≤◌, length, replicate, slice_index_or, slice_set};
ghost use Rattle.flash.specs.Lists.{overwritten};
ghost use Rattle.flash_kinds.specs.Tables.{filled_pages, left_of, no_record, once_more};

use crate::record::PageRecord;

// How many pages a table of cells and a table of records, of these lengths, both fill, at most 1024.
pub(crate) fn filled(cells: usize, records: usize) -> u32
    ensures { result ≡ filled_pages cells records }
{
    (cells / 128).min(records).min(1024) as u32
}

// The cell i.
pub(crate) fn at<W: Copy>(cells: &[W], i: u32) -> W
    requires { i < length cells.now }
    ensures { result ≡ slice_index_or cells.now i result }
{
    cells[i as usize]
}

// Writes `blank` into each of the 128 cells of a page.
pub(crate) fn fill_page<W: Copy>(cells: &mut [W], page: u32, blank: W)
    requires within { 128 * page + 128 ≤ length cells.old }
    requires copied { W.is_infallible blank }
    requires as_it_is { (cell : W) → W.is_clone blank cell → cell ≡ blank }
    ensures { cells.new ≡ overwritten (128 * page) (replicate 128 blank) cells.old }
{
    let start = 128 * page as usize;
    cells[start..start + 128].fill(blank);
}

// The erases left by the record of a page.
pub(crate) fn left(records: &[PageRecord], page: u32) -> u32
    requires { page < length records.now }
    ensures { result ≡ left_of (slice_index_or records.now page no_record) }
{
    let record = records[page as usize];
    record.allowed.saturating_sub(record.made)
}

// Counts one more erase in the record of a page, which has one left.
pub(crate) fn count_erase(records: &mut [PageRecord], page: u32)
    requires within { page < length records.old }
    requires left { 0 < left_of (slice_index_or records.old page no_record) }
    ensures { records.new ≡ slice_set records.old page (once_more (slice_index_or records.old page no_record)) }
{
    let record = records[page as usize];
    records[page as usize].made = record.made + 1;
}
