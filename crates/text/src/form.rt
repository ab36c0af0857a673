// The forms of a solid and of a list, by the word after the bracket.
ghost use Rattle.std.specs.Prelude.{◌≡◌, ℕ, List, MatchOption};
ghost use Rattle.model.specs.Tokens.{placement_word};
ghost use Rattle.model.specs.Grammar.{Goal, at_placement, after_solid_word, after_list_word, stuck};
ghost use Rattle.text.specs.Forms.{solid_word, list_word, kind_of, Gives};

use model::{Operator, Placement, Word};

/// What a list holds.
#[derive(Clone, Copy, PartialEq, Eq)]
pub(crate) enum Element {
    Solid,
    Vector,
}

#[derive(Clone, Copy)]
pub(crate) enum SolidForm {
    Primitive,
    Place(Placement),
    Join(Operator),
    Fold,
}

#[derive(Clone, Copy)]
pub(crate) enum ListForm {
    Elements,
    Repeat,
    Tabulate,
    Concat,
    Map2,
}

// In these three an Option says all that a TryFrom could, whose error would have nothing to name.
pub(crate) fn placement_of(word: Word) -> Option<Placement>
    ensures { MatchOption result ((gs : List Goal) → at_placement word gs ≡ stuck) (λ t. word ≡ placement_word t) }
{
    match word {
        Word::Translate => Some(Placement::Translate),
        Word::Scale => Some(Placement::Scale),
        Word::Rotate => Some(Placement::Rotate),
        _ => None,
    }
}

// Its placements aren't asked of `placement_of`: tried, and the proof of the last arm didn't close.
pub(crate) fn solid_form(word: Word) -> Option<SolidForm>
    ensures { MatchOption result ((d : ℕ) (gs : List Goal) → after_solid_word d gs word ≡ stuck) (λ f. word ≡ solid_word f) }
{
    match word {
        Word::Prim => Some(SolidForm::Primitive),
        Word::Translate => Some(SolidForm::Place(Placement::Translate)),
        Word::Scale => Some(SolidForm::Place(Placement::Scale)),
        Word::Rotate => Some(SolidForm::Place(Placement::Rotate)),
        Word::Union => Some(SolidForm::Join(Operator::Union)),
        Word::Diff => Some(SolidForm::Join(Operator::Diff)),
        Word::Inter => Some(SolidForm::Join(Operator::Inter)),
        Word::Fold => Some(SolidForm::Fold),
        _ => None,
    }
}

pub(crate) fn list_form(element: Element, word: Word) -> Option<ListForm>
    ensures { MatchOption result ((d : ℕ) (gs : List Goal) → after_list_word (kind_of element) d gs word ≡ stuck) (λ f. (word ≡ list_word f) × Gives element f) }
{
    match word {
        Word::List => Some(ListForm::Elements),
        Word::Repeat => Some(ListForm::Repeat),
        Word::Tabulate => Some(ListForm::Tabulate),
        Word::Concat => Some(ListForm::Concat),
        Word::Map2 if element == Element::Solid => Some(ListForm::Map2),
        _ => None,
    }
}
