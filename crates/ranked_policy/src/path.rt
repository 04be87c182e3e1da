//! Paths of routers.

ghost use Rattle.std.specs.Prelude.{◌≡◌, ◌≤◌, ◌<◌, ◌^◌, ◌↔◌, ◌==◌, [], ◌∷◌, length, IsTrue, IsOk, IfOk};

pub use bgp_values::Asn;
use smallvec::SmallVec;
use std::alloc::{AllocError, Global};
use std::marker::Model;

/// A list of AS numbers, the nearest router first and the origin last. Up to eight stand in the
/// value itself and take no memory.
#[derive(Debug, Drop)]
pub struct Path {
    numbers: SmallVec<Asn, 8>,
}

impl Model for Path {
    ghost use Rattle.std.specs.Prelude.{List, ℕ};

    ghost Value = { List ℕ };

    ghost view = { λ path. path.numbers.items };
}

impl Path {
    /// The empty path, which takes no memory.
    pub fn new(alloc: Global) -> Path
        ensures { result ≡ [] }
    {
        Path {
            numbers: SmallVec::new(alloc),
        }
    }

    /// A path of these numbers. It is refused only for want of memory, and never for eight or fewer.
    pub fn from_slice(alloc: Global, numbers: &[Asn]) -> Result<Path, AllocError>
        ensures ok { IfOk result (λ path. path ≡ numbers.now) }
        ensures short { length numbers.now ≤ 8 → IsOk result }
    {
        Ok(Path {
            numbers: SmallVec::from_slice(alloc, numbers)?,
        })
    }

    /// The path that goes on from a router along these numbers.
    pub fn from_router(alloc: Global, router: Asn, rest: &[Asn]) -> Result<Path, AllocError>
        ensures { IfOk result (λ path. path ≡ router ∷ rest.now) }
    {
        let mut numbers = SmallVec::from_slice(alloc, rest)?;
        numbers.insert(0, router)?;
        Ok(Path { numbers })
    }

    /// The numbers.
    pub fn as_slice(&self) -> &[Asn]
        ensures { result.now ≡ self.now }
    {
        self.numbers.as_slice()
    }

    /// How many routers the path has.
    pub fn len(&self) -> usize
        ensures { result ≡ length self.now }
    {
        self.as_slice().len()
    }

    /// Whether the path has no router.
    pub fn is_empty(&self) -> bool
        ensures { result ≡ (length self.now == 0) }
    {
        self.as_slice().is_empty()
    }

    /// Whether the other path is the same.
    pub(crate) fn is(&self, other: &Path) -> bool
        ensures { IsTrue result ↔ (self.now ≡ other.now) }
    {
        self.as_slice() == other.as_slice()
    }
}

impl PartialEq for Path {
    ghost use Rattle.std.specs.Prelude.{◌==◌};
    ghost use Rattle.std.specs.Cmp.Lexicographic.{pointwise};
    ghost use Rattle.std.specs.Cmp.Rules.{comparing};
    ghost use Rattle.std.proofs.Common.{rules};

    ghost eq = { pointwise ◌==◌ };

    ghost laws = { Prim.search (comparing, rules) };

    fn eq(&self, other: &Path) -> bool {
        self.as_slice() == other.as_slice()
    }
}

impl Eq for Path {
    ghost use Rattle.std.specs.Cmp.Rules.{comparing};
    ghost use Rattle.std.proofs.Common.{rules};

    ghost laws = { Prim.search (comparing, rules) };
}
