// File 070, 64 characters: the PRK and the GPK of a HPK, and how many of the one are in the other.
#![tactic(auto)]

ghost use Rattle.std.specs.Prelude.{◌≡◌, length};
ghost use Rattle.records.specs.File.{reading, writing, leaves};
ghost use Rattle.records.specs.Numbers.{says, write_number};
ghost use Rattle.records_070.specs.File070.{file_070};

use records::layout::Layout;
use records::part::Part;
use records::{ReadRefusal, WriteRefusal};

// HPANPR: PRK in HPK. PRANGP: GPK in PRK. HPANGP: GPK in HPK.
#[derive(Clone, Copy, PartialEq, Eq)]
pub struct Record070 {
    pub mutation: u32,
    pub hpkode: u32,
    pub prkode: u32,
    pub hpanpr: u32,
    pub gpkode: u32,
    pub prangp: u32,
    pub hpangp: u32,
}

// Under document 004's names: BSTNUM, MUTKOD, HPKODE, PRKODE, HPANPR, GPKODE, PRANGP, HPANGP, and spaces.
const LAYOUT_070: Layout<9> = Layout {
    parts: &[
        Part::Text(b"0070"),
        Part::Mutation,
        Part::Number(8),
        Part::Number(8),
        Part::Number(6),
        Part::Number(8),
        Part::Number(6),
        Part::Number(6),
        Part::Text(b"                 "),
    ],
};

pub fn read_070(s: &[u8]) -> Result<Record070, ReadRefusal>
    ensures { says result ≡ reading file_070 s.now }
{
    let [
        _,
        mutation,
        hpkode,
        prkode,
        hpanpr,
        gpkode,
        prangp,
        hpangp,
        _,
    ] = LAYOUT_070.read(s)?;
    Ok(Record070 {
        mutation: mutation as u32,
        hpkode: hpkode as u32,
        prkode: prkode as u32,
        hpanpr: hpanpr as u32,
        gpkode: gpkode as u32,
        prangp: prangp as u32,
        hpangp: hpangp as u32,
    })
}

pub fn write_070(buf: &mut [u8], at: usize, r: Record070) -> Result<(), WriteRefusal>
    ensures { (write_number result ≡ writing file_070 r at (length buf.old)) × (buf.new ≡ leaves file_070 r at buf.old) }
{
    let numbers = [
        0,
        r.mutation as u64,
        r.hpkode as u64,
        r.prkode as u64,
        r.hpanpr as u64,
        r.gpkode as u64,
        r.prangp as u64,
        r.hpangp as u64,
        0,
    ];
    LAYOUT_070.write(&numbers, buf, at)
}
