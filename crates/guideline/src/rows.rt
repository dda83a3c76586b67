// The tables by their numbers, and their rows.
ghost use Rattle.std.specs.Prelude.{◌≡◌};
ghost use Rattle.guideline.specs.Rows.{table_number};

#[derive(Clone, Copy)]
pub enum TableName {
    T640,
    T641,
    T642,
    T643,
    T649,
    T730,
    T070,
}

impl TableName {
    // As the papers and the answers have it: a method and no From, since the name is no number.
    pub fn number(self) -> u32
        ensures { result ≡ table_number self }
    {
        match self {
            TableName::T640 => 640,
            TableName::T641 => 641,
            TableName::T642 => 642,
            TableName::T643 => 643,
            TableName::T649 => 649,
            TableName::T730 => 730,
            TableName::T070 => 70,
        }
    }
}

// The rows of the tables, fields in document 01's order and under its names; those of table 70 (P5) in document 004's.
#[derive(Clone, Copy)]
pub struct Row640 {
    pub gpkode: u32,
    pub gpdgst: u32,
    pub gprisc: u32,
}

#[derive(Clone, Copy)]
pub struct Row641 {
    pub gpkode: u32,
    pub prkode: u32,
    pub hpkode: u32,
    pub gpdcod: u32,
    pub gpdbas: u32,
}

#[derive(Clone, Copy)]
pub struct Row642 {
    pub gpdbas: u32,
    pub gpdzco: u32,
    pub icpcnr1: u32,
    pub icpcto: u32,
    pub gpktwg: u32,
    pub gpdcat: u32,
}

#[derive(Clone, Copy)]
pub struct Row643 {
    pub gpdcat: u32,
    pub gpdlfm: u32,
    pub gpdlfx: u32,
    pub gpdfaa: u32,
    pub gpdfee: u32,
    pub gpdkgm: u32,
    pub gpdkgx: u32,
    pub surfacelow: u32,
    pub surfacehigh: u32,
    pub gpddnr: u32,
}

#[derive(Clone, Copy)]
pub struct Row649 {
    pub gpddnr: u32,
    pub normminimum: u32,
    pub normmaximum: u32,
    pub absolutemaximum: u32,
}

#[derive(Clone, Copy)]
pub struct Row730 {
    pub srtcde: u32,
    pub code: u32,
    pub cdhoev: u64,
    pub cdeenh: u32,
}

// HPANPR: how many PRK in the HPK; PRANGP: GPK in the PRK; HPANGP: GPK in the HPK.
#[derive(Clone, Copy)]
pub struct Row070 {
    pub hpkode: u32,
    pub prkode: u32,
    pub hpanpr: u32,
    pub gpkode: u32,
    pub prangp: u32,
    pub hpangp: u32,
}

// Codes are numbers and no enums: a lent row may hold any number, and 122 judges it (`sound_row`).
impl Row640 {
    // GPDGST, and the sex of an entry.
    pub const MAN: u32 = 1;

    pub const WOMAN: u32 = 2;

    pub const BOTH: u32 = 3;

    // GPRISC.
    pub const EMPTY: u32 = 0;

    pub const NARROW: u32 = 1;
}

impl Row641 {
    // GPDCOD.
    pub const BASE_LEVEL: u32 = 1;

    pub const PRODUCT_LEVEL: u32 = 2;
}

impl Row649 {
    // A limit that is 0 is none.
    pub const NO_LIMIT: u32 = 0;
}
