// The standard family: boxes and upright cylinders.
ghost use Rattle.std.specs.Prelude.{◌≡◌, true};
ghost use Rattle.family.specs.Standard.{standard, is_size, is_box, is_cylinder, along, over_base, in_box, in_circle, in_cylinder, holds, when, joint, box_absorbed, cylinder_absorbed};
ghost use Rattle.family.specs.StandardLaws.{standard_laws};

use crate::exact::{product, within};
use crate::family::{Family, Reach};
use crate::reachable::Reachable;
use model::{Point, Primitive, Triple};

const LARGEST: i64 = 1_000_000;

const BOX: u16 = 1;

const CYLINDER: u16 = 2;

#[derive(Clone, Copy)]
pub struct Standard;

fn is_size(value: i64) -> bool
    ensures { result ≡ is_size value }
{
    within(1, value, LARGEST)
}

fn is_box(primitive: &Primitive) -> bool
    ensures { result ≡ is_box primitive.now }
{
    let Triple { x, y, z } = primitive.sizes;
    primitive.kind == BOX && is_size(x) && is_size(y) && is_size(z)
}

fn is_cylinder(primitive: &Primitive) -> bool
    ensures { result ≡ is_cylinder primitive.now }
{
    let Triple { x, y, z } = primitive.sizes;
    primitive.kind == CYLINDER && is_size(x) && is_size(y) && z == 0
}

fn is_along(value: i64, length: i64, w: i64) -> bool
    ensures { result ≡ along value length w }
{
    0 <= value && i128::from(value) <= product(length, w)
}

/// Above the base, below it or on it.
fn over_base(primitive: &Primitive, at: &Point) -> bool
    ensures { result ≡ over_base primitive.now at.now }
{
    is_along(at.x, primitive.sizes.x, at.w) && is_along(at.y, primitive.sizes.y, at.w)
}

fn in_box(primitive: &Primitive, at: &Point) -> bool
    ensures { result ≡ in_box primitive.now at.now }
{
    over_base(primitive, at) && is_along(at.z, primitive.sizes.z, at.w)
}

fn in_circle(at: Reachable, radius: i64) -> bool
    ensures { result ≡ in_circle at.x at.y radius }
{
    let Point { x, y, .. } = at.point();
    product(x, x) + product(y, y) <= product(radius, radius)
}

fn in_cylinder(primitive: &Primitive, at: Reachable) -> bool
    requires { is_cylinder primitive.now ≡ true }
    ensures { result ≡ in_cylinder primitive.now at }
{
    let Point { z, w, .. } = at.point();
    in_circle(at, primitive.sizes.x * w) && is_along(z, primitive.sizes.y, w)
}

fn holds(primitive: &Primitive, at: Reachable) -> bool
    ensures { result ≡ holds primitive.now at }
{
    if is_box(primitive) {
        in_box(primitive, &at.point())
    } else if is_cylinder(primitive) {
        in_cylinder(primitive, at)
    } else {
        false
    }
}

/// The value, if it is a size.
fn as_size(value: i128) -> Option<i64>
    ensures { result ≡ when (is_size value) value }
{
    let size = i64::try_from(value).ok()?;
    if is_size(size) { Some(size) } else { None }
}

fn joined(kind: u16, x: Option<i64>, y: Option<i64>, z: Option<i64>) -> Option<Primitive>
    ensures { result ≡ joint kind x y z }
{
    let sizes = Triple {
        x: x?,
        y: y?,
        z: z?,
    };
    Some(Primitive { kind, sizes })
}

// No factor but a positive one makes a size of a size, so none is tested for its sign.
fn larger_box(primitive: &Primitive, factors: Triple) -> Option<Primitive>
    requires { is_box primitive.now ≡ true }
    ensures { result ≡ box_absorbed primitive.now factors }
{
    let sizes = primitive.sizes;
    joined(
        primitive.kind,
        as_size(product(sizes.x, factors.x)),
        as_size(product(sizes.y, factors.y)),
        as_size(product(sizes.z, factors.z)),
    )
}

fn larger_cylinder(primitive: &Primitive, factors: Triple) -> Option<Primitive>
    requires { is_cylinder primitive.now ≡ true }
    ensures { result ≡ cylinder_absorbed primitive.now factors }
{
    let across = factors.x.unsigned_abs();
    if across != factors.y.unsigned_abs() {
        return None;
    }
    let sizes = primitive.sizes;
    joined(
        primitive.kind,
        as_size(i128::from(sizes.x) * i128::from(across)),
        as_size(product(sizes.y, factors.z)),
        Some(0),
    )
}

// Two tests in a row, since an enum of the two shapes would only be made to be matched at once.
// `contains` is as the catalogue's: see there.
impl Family for Standard {
    ghost meaning = { λ _. standard };

    ghost lawful = { λ _. standard_laws };

    fn legal(&self, primitive: &Primitive) -> bool {
        is_box(primitive) || is_cylinder(primitive)
    }

    fn contains(&self, primitive: &Primitive, at: &Point) -> Reach {
        let Some(at) = Reachable::new(*at) else {
            return Reach::OutOfReach;
        };
        if holds(primitive, at) {
            Reach::In
        } else {
            Reach::Out
        }
    }

    fn absorb(&self, primitive: &Primitive, factors: Triple) -> Option<Primitive> {
        if is_box(primitive) {
            larger_box(primitive, factors)
        } else if is_cylinder(primitive) {
            larger_cylinder(primitive, factors)
        } else {
            None
        }
    }
}
