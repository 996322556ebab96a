// Which cells of a row are read, and which of their values are good: the refusal of the first bad one that is read, in the
// order rating, day, weight, label. A cell that is not read is not asked about. All tests of a row are made before it is asked
// whether one failed: a branch for each rating would cost more than the tests.
ghost use Rattle.std.specs.Prelude.{◌≡◌};
ghost use Rattle.domain.specs.Refusals.{number, number_of};
ghost use Rattle.checks.specs.Reads.{rating_good_def, weight_good_def, label_good_def, is_last, non_zero};
ghost use Rattle.checks.specs.Reads.{card_day_def, check, prefix_row_def, card_score_def, card_row_def, target_def};

use crate::deck::Target;
use domain::floats::is_within;
use domain::limits::is_day;
use domain::refusal::Refusal;

const WEIGHT_MAX: f32 = 1000000.0;

/// 0, 1, 2, 3 or 4; a zero of either sign is zero.
pub fn is_rating(rating: f32) -> bool
    ensures { result ≡ rating_good_def rating }
{
    ((rating == 0.0) | ((rating == 1.0) | (rating == 2.0))) | ((rating == 3.0) | (rating == 4.0))
}

#[tactic(auto, using(crate::proofs::reads::Literals::weight_max))]
fn is_weight(weight: f32) -> bool
    ensures { result ≡ weight_good_def weight }
{
    is_within(weight, 0.0, WEIGHT_MAX)
}

fn is_label(label: f32) -> bool
    ensures { result ≡ label_good_def label }
{
    is_within(label, 0.0, 1.0)
}

// Row + 1 is the length.
#[tactic(auto, unfolding(crate::specs::Reads::is_last))]
pub(crate) fn is_last(n: u32, row: u32) -> bool
    ensures { result ≡ is_last n row }
{
    row as u64 + 1 == n as u64
}

// A rating or a weight that is not zero, of either sign; a NaN is not.
#[tactic(auto, unfolding(crate::specs::Reads::non_zero))]
pub(crate) fn is_nonzero(x: f32) -> bool
    ensures { result ≡ non_zero x }
{
    x != 0.0
}

// A cell that is read and bad is refused.
#[tactic(auto, unfolding(crate::specs::Reads::check))]
pub(crate) fn check(read: bool, good: bool, refusal: Refusal) -> Result<(), Refusal>
    ensures { number_of result ≡ check read good (number refusal) }
{
    if read & !good { Err(refusal) } else { Ok(()) }
}

// 6 or 7.
#[tactic(auto, using(crate::proofs::Chain::both), unfolding(crate::specs::Reads::prefix_row_def, crate::specs::Reads::prefix_day, crate::specs::Reads::later))]
pub(crate) fn check_prefix_row(row: u32, day: f32, rating: f32) -> Result<(), Refusal>
    ensures { number_of result ≡ prefix_row_def row day rating }
{
    let rated = check(true, is_rating(rating), Refusal::Rating);
    let day_read = (row != 0) & is_nonzero(rating);
    rated.and(check(day_read, is_day(day), Refusal::Day))
}

// The last row's day is read if its weight is not 0.
#[tactic(auto, unfolding(crate::specs::Reads::card_day_def, crate::specs::Reads::later))]
fn is_card_day_read(last: bool, row: u32, rating: f32, weight: f32) -> bool
    ensures { result ≡ card_day_def last row rating weight }
{
    (row != 0) & is_nonzero(if last { weight } else { rating })
}

#[tactic(auto, using(crate::proofs::Chain::both), unfolding(crate::specs::Reads::card_score_def, crate::specs::Reads::card_label, crate::specs::Reads::later))]
fn check_score(row: u32, weight: f32, label: f32) -> Result<(), Refusal>
    ensures { number_of result ≡ card_score_def row weight label }
{
    let weighed = check(row != 0, is_weight(weight), Refusal::Review);
    let label_read = (row != 0) & is_nonzero(weight);
    weighed.and(check(label_read, is_label(label), Refusal::Review))
}

// 6, 7 or 8. The last rating is read only where histories stand at the end.
#[tactic(auto, using(crate::proofs::Chain::both), unfolding(crate::specs::Reads::card_row_def, crate::specs::Reads::card_rating))]
pub(crate) fn check_card_row(
    end: bool,
    last: bool,
    row: u32,
    rating: f32,
    target: &Target,
) -> Result<(), Refusal>
    ensures { number_of result ≡ card_row_def end last row target.now.day rating target.now.weight target.now.label }
{
    let rated = check(end | !last, is_rating(rating), Refusal::Rating);
    let day_read = is_card_day_read(last, row, rating, target.weight);
    let dated = check(day_read, is_day(target.day), Refusal::Day);
    let scored = check_score(row, target.weight, target.label);
    rated.and(dated.and(scored))
}

// A prefix's target: weight, label, day; the last two only if the weight counts. 7 or 8.
#[tactic(auto, using(crate::proofs::Chain::both), unfolding(crate::specs::Reads::target_def))]
pub(crate) fn check_target(target: &Target) -> Result<(), Refusal>
    ensures { number_of result ≡ target_def target.now.weight target.now.label target.now.day }
{
    let counts = is_nonzero(target.weight);
    let weighed = check(true, is_weight(target.weight), Refusal::Review);
    let labelled = check(counts, is_label(target.label), Refusal::Review);
    let dated = check(counts, is_day(target.day), Refusal::Day);
    weighed.and(labelled.and(dated))
}
