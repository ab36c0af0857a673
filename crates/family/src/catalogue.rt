// A family of profiles that the caller's table lists: each row is a half space of its profile.
ghost use Rattle.std.specs.Prelude.{◌≡◌, true};
ghost use Rattle.std.specs.List.{list_all};
ghost use Rattle.family.specs.Catalogue.{catalogue, in_range, fits, is_coefficient, has_profile, no_sizes, listed, half_space, admits};
ghost use Rattle.family.specs.CatalogueLaws.{catalogue_laws};

use crate::exact::{product, within};
use crate::family::{Family, Reach};
use crate::reachable::{Reachable, is_near};
use model::{Point, Primitive, Triple};

const STEEPEST: i64 = 1_000;

/// The points with p·x + q·y + r·z at most d·w.
#[derive(Clone, Copy)]
pub struct Row {
    pub profile: u16,
    pub p: i64,
    pub q: i64,
    pub r: i64,
    pub d: i64,
}

#[derive(Clone, Copy)]
pub struct Catalogue<'a> {
    pub rows: &'a [Row],
}

fn is_coefficient(value: i64) -> bool
    ensures { result ≡ is_coefficient value }
{
    within(-STEEPEST, value, STEEPEST)
}

fn in_range(row: &Row) -> bool
    ensures { result ≡ in_range row.now }
{
    is_coefficient(row.p) && is_coefficient(row.q) && is_coefficient(row.r) && is_near(row.d)
}

fn row_fits(row: &Row, kind: u16) -> bool
    ensures { result ≡ fits kind row.now }
{
    row.profile != kind || in_range(row)
}

// The rows and the kind go through three functions of a line each: a struct of both would say no more.
fn all_fit(rows: &[Row], kind: u16) -> bool
    ensures { result ≡ list_all (fits kind) rows.now }
{
    rows.iter().all(|row| row_fits(row, kind))
}

fn has_profile(rows: &[Row], kind: u16) -> bool
    ensures { result ≡ has_profile kind rows.now }
{
    rows.iter().any(|row| row.profile == kind)
}

fn has_no_sizes(primitive: &Primitive) -> bool
    ensures { result ≡ no_sizes primitive.now }
{
    let Triple { x, y, z } = primitive.sizes;
    x == 0 && y == 0 && z == 0
}

fn is_listed(rows: &[Row], primitive: &Primitive) -> bool
    ensures { result ≡ listed rows.now primitive.now }
{
    has_no_sizes(primitive) && has_profile(rows, primitive.kind) && all_fit(rows, primitive.kind)
}

fn in_half_space(row: &Row, at: Reachable) -> bool
    ensures { result ≡ half_space row.now at }
{
    let at = at.point();
    let first = product(row.p, at.x);
    let second = product(row.q, at.y);
    let third = product(row.r, at.z);
    first + second + third <= product(row.d, at.w)
}

fn admits(row: &Row, kind: u16, at: Reachable) -> bool
    ensures { result ≡ admits kind at row.now }
{
    row.profile != kind || in_half_space(row, at)
}

fn all_admit(rows: &[Row], kind: u16, at: Reachable) -> bool
    ensures { result ≡ list_all (admits kind at) rows.now }
{
    rows.iter().all(|row| admits(row, kind, at))
}

fn holds(rows: &[Row], primitive: &Primitive, at: Reachable) -> bool
    ensures { result ≡ (catalogue rows.now).contains primitive.now at }
{
    is_listed(rows, primitive) && all_admit(rows, primitive.kind, at)
}

// `contains` is as the standard family's, but for what holds: one function for both would take a closure,
// and its contract would be longer than the two.
impl<'a> Family for Catalogue<'a> {
    ghost meaning = { λ s. catalogue s.rows.now };

    ghost lawful = { λ s. catalogue_laws s.rows.now };

    fn legal(&self, primitive: &Primitive) -> bool {
        is_listed(self.rows, primitive)
    }

    fn contains(&self, primitive: &Primitive, at: &Point) -> Reach {
        let Some(at) = Reachable::new(*at) else {
            return Reach::OutOfReach;
        };
        if holds(self.rows, primitive, at) {
            Reach::In
        } else {
            Reach::Out
        }
    }

    fn absorb(&self, _primitive: &Primitive, _factors: Triple) -> Option<Primitive> {
        None
    }
}
