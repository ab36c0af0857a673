// Whether a family finds the primitives of a node legal.
ghost use Rattle.std.specs.Prelude.{◌≡◌, ℕ, false, List};
ghost use Rattle.model.specs.declared.law.Law.TheVariants.{Numbers, Primitives};
ghost use Rattle.model.specs.declared.node.Placement.TheVariants.{Translate};
ghost use Rattle.model.specs.Placements.{at};
ghost use Rattle.model.specs.Legality.{unkind, wild, unknown, breaks as is_broken};
ghost use Rattle.program.specs.Judging.{illegal};

use super::bounds::{FARTHEST, turns_asked};
use super::narrow::bounded_at;
use family::Family;
use model::{Context, Linear, Node, Primitive};

// Whether the sizes at an index are too large, or such that the family finds the primitive illegal.
fn is_illegal_at<F: Family>(family: &F, kind: u16, v: Linear, index: u64) -> bool
    ensures { result ≡ illegal (F.Family.meaning family.now) kind (at index v) }
{
    match bounded_at(FARTHEST, v, index) {
        Some(sizes) => !family.legal(&Primitive { kind, sizes }),
        None => true,
    }
}

// Asked only of a kind and of sizes that the law on numbers allows.
fn is_unknown<F: Family>(family: &F, context: Context, kind: i64, v: Linear) -> bool
    ensures { unkind kind ≡ false → wild Translate context v ≡ false → result ≡ unknown (F.Family.meaning family.now) context kind v }
{
    let Ok(kind) = u16::try_from(kind) else {
        return true;
    };
    (0..turns_asked(context.around, v)).any(|i| is_illegal_at(family, kind, v, i))
}

/// Whether a node that keeps the law on numbers breaks the law on primitives.
pub(crate) fn breaks_primitives<F: Family>(family: &F, node: Node, context: Context) -> bool
    ensures { (cs : List ℕ) → is_broken (F.Family.meaning family.now) context cs node Numbers ≡ false → result ≡ is_broken (F.Family.meaning family.now) context cs node Primitives }
{
    match node {
        Node::Primitive(kind, v) => is_unknown(family, context, kind, v),
        _ => false,
    }
}
