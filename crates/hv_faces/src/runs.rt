//! Runs, each of which finds the configurations of one face.
ghost use Rattle.std.specs.Prelude.{◌≡◌, ◌↔◌, Bool, List, IfOk, true};
ghost use Rattle.hv_cond.specs.Diagram.{Diagram, IsNever, IsNode, Keeps, holds};
ghost use Rattle.hv_faces.specs.Faces.{IsClass};

use crate::class::Class;
use hv_base::Memory;
use hv_cond::{Cond, Store};

/// What runs under some of a condition's configurations. A configuration's face is what can be
/// seen of its run; it is known only by which configurations have one face.
pub trait Runs {
    /// What is found for the configurations of one face.
    type Value: Drop;

    /// Whether a run can be made over a store.
    ghost is_good: { Diagram → Self → Type 0 };

    /// Whether two configurations have one face.
    ghost same_face: { Diagram → Self → List Bool → List Bool → Type 0 };

    /// Whether a value is that of a configuration.
    ghost is_right: { Diagram → Self → Self.Value → List Bool → Type 0 };

    /// Finds the configurations of one face among those of a condition.
    fn run(&self, store: &mut Store, cond: Cond) -> Result<Class<Self::Value>, Memory>
        requires good { is_good store.old self.now }
        requires node { IsNode store.old cond }
        requires possible { IsNever store.old cond → ⊥ }
        ensures keeps { Keeps store.old store.new }
        ensures class { IfOk result (λ found. IsClass store.new
            (λ values. holds store.old cond values) (same_face store.old self.now) found.cond) }
        ensures right { IfOk result (λ found. (values : List Bool)
            → holds store.new found.cond values ≡ true
            → is_right store.old self.now found.value values) };

    /// One configuration has another's face where that has its.
    ghost symmetric: { (diagram : Diagram) (runs : Self) (values others : List Bool)
        → same_face diagram runs values others → same_face diagram runs others values };

    /// Runs can be made over a store that has grown.
    ghost good_kept: { (old new : Diagram) (runs : Self) → Keeps old new → is_good old runs
        → is_good new runs };

    /// A store that grows changes no face.
    ghost face_kept: { (old new : Diagram) (runs : Self) (values others : List Bool)
        → Keeps old new → is_good old runs
        → (same_face new runs values others ↔ same_face old runs values others) };

    /// A store that grows changes no value.
    ghost right_kept: { (old new : Diagram) (runs : Self) (value : Self.Value) (values : List Bool)
        → Keeps old new → is_good old runs
        → is_right new runs value values → is_right old runs value values };
}
