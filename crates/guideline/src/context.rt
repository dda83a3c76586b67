// What the steps have chosen, for the steps after them.
use crate::rows::{Row640, Row641, Row642, Row643, Row649};

// A dose in base units is the dose times `base` over `entered`.
#[derive(Clone, Copy)]
pub struct Ratio {
    pub base: u64,
    pub entered: u64,
}

// Chosen by steps 2 to 6: the ratio, the row of the product, the age in months, the row of the level and the row of the setting.
#[derive(Clone, Copy)]
pub struct Context {
    pub ratio: Ratio,
    pub product: Row640,
    pub age: u32,
    pub level: Row641,
    pub setting: Row642,
}

// And by step 11: the row of the category, and the limits of its rule.
#[derive(Clone, Copy)]
pub struct Selected {
    pub context: Context,
    pub row: Row643,
    pub limits: Row649,
}
