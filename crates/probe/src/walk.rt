// The walk of a point through a program: a loop with a stack of frames.
ghost use Rattle.std.specs.Prelude.{◌≡◌, ◌<◌, true, [], ◌∷◌, ◌++◌, length, Some, vec_len, vec_capacity};
ghost use Rattle.model.specs.Syntax.{textual};
ghost use Rattle.model.specs.Tables.{held};
ghost use Rattle.model.specs.Unrolling.{apply, belonging};
ghost use Rattle.program.specs.Elements.{nodes_of};
ghost use Rattle.probe.specs.Walking.{asked, AllSound, Low, Goes, Turns, said, verdict};
ghost use Rattle.probe.specs.declared.task.Turn.TheVariants.{Enter, Leave};

use super::asked::contains;
use super::spot::moved;
use super::stack::Stack;
use super::task::{Frame, Task, Turn};
use super::unprobed::Unprobed;
use family::{Family, Reachable};
use model::{Node, Operator};
use program::{Layout, Term};

fn applied(operator: Operator, left: bool, right: bool) -> bool
    ensures { result ≡ apply belonging operator left right }
{
    match operator {
        Operator::Union => left || right,
        Operator::Diff => left && !right,
        Operator::Inter => left && right,
    }
}

/// The program that is walked through, and the family that is asked about its primitives.
#[derive(Drop)]
pub(crate) struct Walker<'a, F> {
    pub(crate) layout: &'a Layout,
    pub(crate) family: &'a F,
}

impl<'a, F: Family> Walker<'a, F> {
    // Goes into a term.
    fn enter(&self, task: Task, stack: &mut Stack) -> Result<Turn, Unprobed>
        requires sound { AllSound (nodes_of self.now.layout.now) 0 stack.old.frames.items }
        requires low { Low (nodes_of self.now.layout.now) (length stack.old.frames.items) (Enter task) }
        ensures { Turns (nodes_of self.now.layout.now) (asked (F.Family.meaning self.now.family.now)) stack.old.frames.items (Enter task) stack.new.frames.items result }
    {
        let Term { place, index } = task.term;
        let first = task.term.part();
        match self.layout.node_at(place) {
            Node::Primitive(kind, sizes) => match task.spot {
                Some(at) => {
                    let held = contains(self.family, kind, sizes.at(index), at);
                    Ok(Turn::Leave(held))
                }
                None => Err(Unprobed::OutOfReach),
            },
            Node::Place(placement, vector) => Ok(Turn::Enter(Task {
                term: first,
                spot: moved(placement, vector.at(index), task.spot),
            })),
            Node::Join(operator) => {
                let right = task.with_term(first.next(self.layout));
                stack.frames.push_reserved(Frame::Left(operator, right));
                Ok(Turn::Enter(task.with_term(first)))
            }
            Node::Fold => {
                let list = task.with_term(first);
                stack.frames.push_reserved(Frame::Rest(list, 0, false));
                Ok(Turn::Leave(false))
            }
            _ => Ok(Turn::Leave(false)),
        }
    }

    // Goes on with an answer at the frame that was on top.
    fn leave(&self, frame: Frame, held: bool, stack: &mut Stack) -> Turn
        requires sound { AllSound (nodes_of self.now.layout.now) 0 (stack.old.frames.items ++ frame ∷ []) }
        requires below { vec_len stack.old.frames < vec_capacity stack.old.frames }
        ensures { Goes (nodes_of self.now.layout.now) (asked (F.Family.meaning self.now.family.now)) (stack.old.frames.items ++ frame ∷ []) (Leave held) stack.new.frames.items result }
    {
        match frame {
            Frame::Left(operator, right) => {
                stack.frames.push_reserved(Frame::Right(operator, held));
                Turn::Enter(right)
            }
            Frame::Right(operator, left) => Turn::Leave(applied(operator, left, held)),
            Frame::Rest(list, next, earlier) => {
                let any = applied(Operator::Union, earlier, held);
                if next < self.layout.measure_at(list.term.place).elements {
                    let element = list.item(self.layout, next);
                    stack.frames.push_reserved(Frame::Rest(list, next + 1, any));
                    Turn::Enter(element)
                } else {
                    Turn::Leave(any)
                }
            }
        }
    }

    /// Whether the program contains a point.
    pub(crate) fn run(&self, at: Reachable, stack: &mut Stack) -> Result<bool, Unprobed>
        requires { textual (held self.now.layout.now.table) ≡ true }
        ensures { result ≡ verdict (said (nodes_of self.now.layout.now) (asked (F.Family.meaning self.now.family.now)) (record { term = record { place = 0; index = 0 }; spot = Some at })) }
    {
        stack.frames.clear();
        let mut turn = Turn::Enter(Task {
            term: Term { place: 0, index: 0 },
            spot: Some(at),
        });
        loop {
            turn = match turn {
                Turn::Enter(task) => self.enter(task, stack)?,
                Turn::Leave(held) => match stack.frames.pop() {
                    None => return Ok(held),
                    Some(frame) => self.leave(frame, held, stack),
                },
            };
        }
    }
}
