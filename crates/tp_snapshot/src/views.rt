//! What is shown of the elements: by a past, or now.

ghost use Rattle.std.specs.Prelude.{◌≡◌};
ghost use Rattle.tp_snapshot.specs.Views.{view_test, IsTrailOf};

use crate::snapshot::{Snapshot, Trail};
use tp_rga::Seen;

/// What is shown of the elements.
#[derive(Drop)]
pub(crate) enum View {
    /// All that aren't deleted.
    Now,
    /// What a past shows.
    At(Snapshot),
}

impl View {
    /// What is kept from one element of a walk to the next, where no element was asked for. That of another view serves
    /// where nothing is kept.
    pub(crate) fn trail(&self, other: Trail) -> Trail
        ensures { IsTrailOf self.now result }
    {
        match self {
            View::Now => other,
            View::At(snapshot) => snapshot.trail(),
        }
    }

    /// Whether it shows an element.
    #[inline]
    pub(crate) fn shows(&self, element: &Seen, trail: &mut Trail) -> bool
        requires { IsTrailOf self.now trail.old }
        ensures trail { IsTrailOf self.now trail.new }
        ensures shown { result ≡ view_test self.now element.now }
    {
        match self {
            View::Now => !element.deleted,
            View::At(snapshot) => snapshot.shows(element, trail),
        }
    }
}
