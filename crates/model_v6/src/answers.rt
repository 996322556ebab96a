// The tests that the entries share.
ghost use Rattle.std.specs.Prelude.{◌≡◌, true, false, MatchResult};
ghost use Rattle.domain.specs.declared.refusal.Refusal.TheVariants.{Argument};
ghost use Rattle.model_v6.specs.Answers.{grade_good};

use domain::refusal::Refusal;

/// 13 unless the arguments are `good`: asked after the weights.
pub(crate) fn check_argument(good: bool) -> Result<(), Refusal>
    ensures { MatchResult result (λ _. good ≡ true) (λ e. (e ≡ Argument) × (good ≡ false)) }
{
    if good { Ok(()) } else { Err(Refusal::Argument) }
}

/// Whether a rating is one of the four.
pub(crate) fn is_rating(rating: u32) -> bool
    ensures { result ≡ grade_good rating }
{
    (1 <= rating) & (rating <= 4)
}
