// Places in a sheet, and n, with which every sheet begins.
ghost use Rattle.std.specs.Prelude.{◌≡◌, ◌≤◌, length};
ghost use Rattle.sheets.specs.Layout.{place, variables};

// A proof sheet's variables and rows, by which its parts are found.
#[derive(Clone, Copy)]
pub struct Shape {
    pub n: usize,
    pub k: usize,
}

// Where entry i begins, of entries of one size that stand one after another.
pub fn place_of(from: usize, i: usize, size: usize) -> usize
    requires { (from ≤ 16777216) × (i ≤ 65535) × (size ≤ 1023) }
    ensures { result ≡ place from i size }
{
    from + i * size
}

// The number of variables n.
pub fn variables(sheet: &[u8]) -> usize
    requires { 8 ≤ length sheet.now }
    ensures { (result ≡ variables sheet.now) × (result ≤ 255) }
{
    usize::from(sheet[0])
}
