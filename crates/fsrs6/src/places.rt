//! How an answer is given to a C caller: as a number, with the rest in the places that it lends.
ghost use Rattle.std.specs.Prelude.{◌≡◌};
ghost use Rattle.domain.specs.Refusals.{number_of};
ghost use Rattle.fsrs6.specs.Places.{placed};

use domain::refusal::Refusal;

/// 0 with the value in its place, or the refusal's number, and the place is left as it was.
pub fn answer<T: Copy>(answer: Result<T, Refusal>, place: &mut T) -> u32
    ensures number { result ≡ number_of answer }
    ensures place { place.new ≡ placed answer place.old }
{
    match answer {
        Ok(x) => {
            *place = x;
            0
        }
        Err(refusal) => refusal.number(),
    }
}
