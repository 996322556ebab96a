// A fault and its place.
ghost use Rattle.std.specs.Prelude.{◌≡◌, Some, None, true};
ghost use Rattle.domain.specs.Refusals.{number_of};
ghost use Rattle.checks.specs.Faults.{PlacedWhere, fault_at_def, fault_of};

use domain::refusal::Refusal;

/// The cell that is bad. The row is 0 for an empty prefix, and the length for a target.
#[derive(Clone, Copy, Debug, PartialEq, Eq, Hash)]
pub struct Place {
    pub column: u32,
    pub row: u32,
}

/// Why a loss call is refused, and where, if it is a cell that is bad.
#[derive(Clone, Copy, Debug, PartialEq, Eq, Hash)]
pub struct Fault {
    pub refusal: Refusal,
    pub place: Option<Place>,
}

impl Fault {
    // At a cell.
    pub(crate) fn at(refusal: Refusal, column: u32, row: u32) -> Fault
        ensures { result ≡ record { refusal = refusal; place = Some (record { column = column; row = row }) } }
    {
        Fault {
            refusal,
            place: Some(Place { column, row }),
        }
    }
}

// A cell's refusal, at the cell.
#[tactic(auto, using(crate::proofs::faults::First::cell))]
pub(crate) fn locate(checked: Result<(), Refusal>, column: u32, row: u32) -> Result<(), Fault>
    ensures fault { fault_of result ≡ fault_at_def (number_of checked) column row }
    ensures place { PlacedWhere true result }
{
    checked.map_err(|refusal| Fault::at(refusal, column, row))
}

/// A refusal that no cell gives.
impl From<Refusal> for Fault {
    ghost from_gives = { λ e f. f ≡ record { refusal = e; place = None } };

    fn from(refusal: Refusal) -> Fault {
        Fault {
            refusal,
            place: None,
        }
    }
}

impl From<Fault> for Refusal {
    ghost from_gives = { λ f e. e ≡ f.refusal };

    fn from(fault: Fault) -> Refusal {
        fault.refusal
    }
}
