// P5, "Let the HPK bring its PRK": before step 2, table 70 fills a blank PRK and a GPK of 0.
#![tactic(auto)]

ghost use Rattle.std.specs.Prelude.{◌≡◌};
ghost use Rattle.guideline.specs.Filling.{agrees, gpk_filled, filled_by, filling};
ghost use Rattle.guideline.specs.Results.{Chooses};
ghost use Rattle.keys.specs.Rows.{lent_rows};
ghost use Rattle.filling.specs.Fills.{by_row};

use guideline::entries::{Data, Entry, Prescription};
use guideline::refusals::{Ending, Refusal};
use guideline::rows::Row070;
use keys::lent::Lent;
use tables::found::Found;

// A blank PRK and a GPK of 0 do not differ from the row.
#[tactic(auto, unfolding(guideline::specs::Filling::agrees, guideline::specs::Filling::same_prk, guideline::specs::Filling::same_gpk))]
fn agrees(r: Row070, e: Entry) -> bool
    ensures { result ≡ agrees r e }
{
    let gpk = e.rest.gpk;
    e.known.prk.is_none_or(|prk| prk == r.prkode)
        && (gpk == Prescription::NO_GPK || gpk == r.gpkode)
}

#[tactic(auto, unfolding(guideline::specs::Filling::gpk_filled))]
fn gpk_filled(r: Row070, gpk: u32) -> u32
    ensures { result ≡ gpk_filled r gpk }
{
    if gpk == Prescription::NO_GPK {
        r.gpkode
    } else {
        gpk
    }
}

// What is given stays.
#[tactic(auto, unfolding(guideline::specs::Filling::filled_by, guideline::specs::Filling::prk_filled))]
fn filled_by(r: Row070, e: Entry) -> Entry
    ensures { result ≡ filled_by r e }
{
    let known = Data {
        prk: e.known.prk.or(Some(r.prkode)),
        ..e.known
    };
    let rest = Prescription {
        gpk: gpk_filled(r, e.rest.gpk),
        ..e.rest
    };
    Entry { known, rest }
}

// "133, text 0, for a PRK or GPK that differs from the row"; else the row fills what is open.
#[tactic(auto, unfolding(crate::specs::Fills::by_row))]
fn by_row(r: Row070, e: Entry) -> Result<Entry, Refusal>
    ensures { result ≡ by_row r e }
{
    if !agrees(r, e) {
        return Err(Refusal::Ends(Ending::HpkRowDiffers));
    }
    Ok(filled_by(r, e))
}

// The filling of an entry. "An HPK with no row fills nothing"; "123 with table 70 for several rows". It asks for no datum.
pub fn fill(t070: &Lent<'_, Row070>, e: Entry) -> Result<Entry, Refusal>
    ensures { Chooses (filling (lent_rows t070.now) e) result }
{
    let Some(hpk) = e.known.hpk else {
        return Ok(e);
    };
    match tables::look_up(t070, hpk) {
        Found::Nothing => Ok(e),
        Found::One(row) => by_row(row, e),
        Found::Many(_) => Err(Refusal::Ends(Ending::HpkRowsSeveral)),
    }
}
