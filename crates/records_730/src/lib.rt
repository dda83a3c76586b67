// File 730, 64 characters: amounts and units.
#![tactic(auto)]

ghost use Rattle.std.specs.Prelude.{◌≡◌, length};
ghost use Rattle.records.specs.File.{reading, writing, leaves};
ghost use Rattle.records.specs.Numbers.{says, write_number};
ghost use Rattle.records_730.specs.File730.{file_730};

use records::layout::Layout;
use records::part::Part;
use records::{ReadRefusal, WriteRefusal};

// CDHOEV in thousandths.
#[derive(Clone, Copy, PartialEq, Eq)]
pub struct Record730 {
    pub mutation: u32,
    pub srtcde: u32,
    pub code: u32,
    pub cdhoev: u64,
    pub cdeenh: u32,
}

// Under document 004's names: BSTNUM, MUTKOD, THSRTC, SRTCDE, CODE, CDHOEV, TSEENH, CDEENH, and spaces.
const LAYOUT_730: Layout<9> = Layout {
    parts: &[
        Part::Text(b"0730"),
        Part::Mutation,
        Part::Text(b"1850"),
        Part::Number(6),
        Part::Number(8),
        Part::Number(12),
        Part::Text(b"0002"),
        Part::Number(6),
        Part::Text(b"                   "),
    ],
};

pub fn read_730(s: &[u8]) -> Result<Record730, ReadRefusal>
    ensures { says result ≡ reading file_730 s.now }
{
    let [_, mutation, _, srtcde, code, cdhoev, _, cdeenh, _] = LAYOUT_730.read(s)?;
    Ok(Record730 {
        mutation: mutation as u32,
        srtcde: srtcde as u32,
        code: code as u32,
        cdhoev,
        cdeenh: cdeenh as u32,
    })
}

pub fn write_730(buf: &mut [u8], at: usize, r: Record730) -> Result<(), WriteRefusal>
    ensures { (write_number result ≡ writing file_730 r at (length buf.old)) × (buf.new ≡ leaves file_730 r at buf.old) }
{
    let numbers = [
        0,
        r.mutation as u64,
        0,
        r.srtcde as u64,
        r.code as u64,
        r.cdhoev,
        0,
        r.cdeenh as u64,
        0,
    ];
    LAYOUT_730.write(&numbers, buf, at)
}
