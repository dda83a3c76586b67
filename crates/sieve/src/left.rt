// The rows of a category that steps 7 to 10 have left so far: where they are lent, and what a row has to pass. No row is remembered: each step goes over the
// rows of the category again, from the first on that the step before it left.
use crate::settled::Settled;
use guideline::rows::Row643;
use keys::rows::KeyRows;

#[derive(Drop)]
pub struct Left<'a> {
    pub rows: KeyRows<'a, Row643>,
    pub settled: Settled,
}
