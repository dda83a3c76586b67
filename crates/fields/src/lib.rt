// The ranges of the fields, document 01's and the requests'. proofs/Ranges.antt says that they are the definitions'.
#![tactic(auto)]

use guideline::entries::Prescription;
use guideline::range::Range;
use guideline::rows::{Row640, Row641, Row649};
use guideline::setting::Setting;

pub mod amount;

pub const CODES: Range = Range {
    low: 0,
    high: 99_999_999,
};

// GPDBAS, GPDCAT and GPDDNR, and a PRK or HPK that is given.
pub const CODES_FROM_1: Range = Range {
    low: 1,
    high: CODES.high,
};

pub const UNITS: Range = Range {
    low: 0,
    high: 999_999,
};

pub const COUNTS: Range = Range { low: 1, high: 999 };

// HPANPR, PRANGP and HPANGP, six digits wide.
pub const COUNTS_OF_070: Range = Range {
    low: 0,
    high: 999_999,
};

pub const DOSES: Range = Range {
    low: 1,
    high: 999_999_999,
};

// The limits of table 649: 0 means no such limit.
pub const LIMITS: Range = Range {
    low: Row649::NO_LIMIT,
    high: DOSES.high,
};

pub const AGES: Range = Range {
    low: 0,
    high: 1_800,
};

pub const WEIGHTS: Range = Range {
    low: 1,
    high: 999_999,
};

pub const SURFACES: Range = Range {
    low: 1,
    high: 9_999,
};

pub const SEXES: Range = Range {
    low: Row640::MAN,
    high: Row640::WOMAN,
};

pub const SEXES_OF_640: Range = Range {
    low: Row640::MAN,
    high: Row640::BOTH,
};

pub const RISKS: Range = Range {
    low: Row640::EMPTY,
    high: Row640::NARROW,
};

pub const LEVELS: Range = Range {
    low: Row641::BASE_LEVEL,
    high: Row641::PRODUCT_LEVEL,
};

pub const CARE_GROUPS: Range = Range {
    low: Setting::INTENSIVE_CARE,
    high: Setting::ALL_CARE,
};

pub const ICPCTOS: Range = Range {
    low: Setting::WHOLE_REASON,
    high: Setting::LAST_ICPCTO,
};

// What a switch that is given may hold.
pub const POSITIONS: Range = Range {
    low: Prescription::OFF,
    high: Prescription::ON,
};

pub const EDITIONS: Range = Range {
    low: Prescription::FORMER,
    high: Prescription::CURRENT,
};
