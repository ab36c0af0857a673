// Reads the tokens of a text into a table of nodes, in reading order.
ghost use Rattle.std.specs.Prelude.{◌≡◌, ℕ, ◌+◌, ◌<◌, ◌≤◌, true, false, List, [], ◌∷◌, ◌++◌, length, replicate, IfOk, Ok, Err, vec_len, OnOk};
ghost use Rattle.model.specs.declared.word.Mark.TheVariants as mark;
ghost use Rattle.model.specs.Feed.{said};
ghost use Rattle.model.specs.Grammar.{Goal, judged, run, room};
ghost use Rattle.model.specs.Lexing.{feed};
ghost use Rattle.model.specs.Grammar as goal;
ghost use Rattle.model.specs.Syntax.{solid, vector, one, many};
ghost use Rattle.model.specs.Tokens as tokens;
ghost use Rattle.text.specs.Forms.{kind_of};
ghost use Rattle.text.specs.Lexer.{ahead, token_of};
ghost use Rattle.text.specs.Reading.{after, closes, judge, Read};
ghost use Rattle.text.specs.Building.{count, left, HasRead, Leads, Moved, Onward};

use super::form::{Element, ListForm, SolidForm, list_form, solid_form};
use super::token::{Lexer, Token, TokenKind};
use model::{Draft, MOST_LEVELS, MOST_NODES, Mark, Node, Refusal, Span, Word};

// Not a pattern in `elements`: past one the proof does not know what the token is not.
fn is_close(token: Token) -> bool
    ensures { result ≡ closes (token_of token) }
{
    matches!(token.kind, TokenKind::Mark(Mark::Close))
}

// A text that is being read, and the draft that its nodes go to.
#[derive(Drop)]
struct Reader<'a, 'b> {
    lexer: Lexer<'a>,
    draft: &'b mut Draft,
}

// `Moved` and `Onward` tell of a call, and no type of the reader can: so the contract of each
// function that reads has one of them.
impl Reader<'_, '_> {
    // Refuses one more node past the limits, whose first token stands at `span`, with `levels` left.
    fn room_for(&self, levels: u16, span: Span) -> Result<(), Refusal>
        ensures { elim result [ Ok _ ↦ room levels (count self.now) ≡ true | Err f ↦ (room levels (count self.now) ≡ false) × (f ≡ Refusal.TooLarge span) ] }
    {
        let draft = &*self.draft;
        if levels == 0 || draft.nodes.len() >= MOST_NODES {
            return Err(Refusal::TooLarge(span));
        }
        Ok(())
    }

    // Adds a node, and says at which place. That it fits is known where the node's first token was
    // taken, and not of every reader, so three contracts ask for it.
    fn push(&mut self, node: Node) -> usize
        requires { count self.old < 640 }
        ensures same { (self.new.lexer ≡ self.old.lexer) × (self.new.draft.ghost_name ≡ self.old.draft.ghost_name) }
        ensures place { result ≡ count self.old }
        ensures items { self.new.draft.now.nodes.items ≡ self.old.draft.now.nodes.items ++ (node ∷ []) }
    {
        let draft = &mut *self.draft;
        let place = draft.nodes.len();
        draft.nodes.push_reserved(node);
        place
    }

    // With `levels` left for it and its parts. What is read and the levels go through five functions:
    // a struct of both would have to be made anew for each part.
    #[cycle(reading)]
    fn element(&mut self, element: Element, levels: u16) -> Result<(), Refusal>
        ensures moved { Moved self.old result self.new }
        ensures read { HasRead (one (kind_of element) ∷ []) (said (left self.old)) self.old result self.new }
        ensures goes { Leads (λ gs. run (left self.old) (goal.element (kind_of element) levels ∷ gs) (count self.old)) result self.new }
    {
        let token = self.lexer.take()?;
        self.element_from(token, element, levels)
    }

    // An element whose first token is taken.
    #[cycle(reading)]
    fn element_from(&mut self, token: Token, element: Element, levels: u16) -> Result<(), Refusal>
        ensures moved { Onward self.old result self.new }
        ensures read { HasRead (one (kind_of element) ∷ []) (token_of token ∷ said (left self.old)) self.old result self.new }
        ensures goes { Leads (λ gs. judge token self.old.lexer (goal.element (kind_of element) levels) gs (count self.old)) result self.new }
    {
        match element {
            Element::Solid => self.solid_from(token, levels),
            Element::Vector => self.vector_from(token, levels),
        }
    }

    fn vector_from(&mut self, token: Token, levels: u16) -> Result<(), Refusal>
        ensures moved { Onward self.old result self.new }
        ensures read { HasRead (one vector ∷ []) (token_of token ∷ said (left self.old)) self.old result self.new }
        ensures goes { Leads (λ gs. judge token self.old.lexer (goal.element vector levels) gs (count self.old)) result self.new }
    {
        let TokenKind::Mark(Mark::Left) = token.kind else {
            return Err(Refusal::NoSolid(token.span));
        };
        self.room_for(levels, token.span)?;
        let vector = self.lexer.entries()?;
        self.push(Node::Vector(vector));
        Ok(())
    }

    #[cycle(reading)]
    fn solid_from(&mut self, token: Token, levels: u16) -> Result<(), Refusal>
        ensures moved { Onward self.old result self.new }
        ensures read { HasRead (one solid ∷ []) (token_of token ∷ said (left self.old)) self.old result self.new }
        ensures goes { Leads (λ gs. judge token self.old.lexer (goal.element solid levels) gs (count self.old)) result self.new }
    {
        if let TokenKind::Word(Word::Empty) = token.kind {
            self.room_for(levels, token.span)?;
            self.push(Node::Empty);
            return Ok(());
        }
        let TokenKind::Mark(Mark::Open) = token.kind else {
            return Err(Refusal::NoSolid(token.span));
        };
        self.room_for(levels, token.span)?;
        self.inside_solid(levels - 1)
    }

    // The rest of a solid after its bracket, whose parts have `levels` left.
    #[cycle(reading)]
    fn inside_solid(&mut self, levels: u16) -> Result<(), Refusal>
        requires len { count self.old < 640 }
        ensures moved { Moved self.old result self.new }
        ensures read { HasRead (one solid ∷ []) (tokens.mark mark.Open ∷ said (left self.old)) self.old result self.new }
        ensures goes { Leads (λ gs. run (left self.old) (goal.in_solid levels ∷ gs) (count self.old + 1)) result self.new }
    {
        let token = self.lexer.take()?;
        let TokenKind::Word(word) = token.kind else {
            return Err(Refusal::NoSolid(token.span));
        };
        let form = solid_form(word).ok_or(Refusal::NoSolid(token.span))?;
        match form {
            SolidForm::Primitive => {
                let kind = self.lexer.plain()?;
                let sizes = self.lexer.bracket()?;
                self.push(Node::Primitive(kind, sizes));
                self.lexer.mark(Mark::Close)?;
                Ok(())
            }
            SolidForm::Place(placement) => {
                let vector = self.lexer.bracket()?;
                self.push(Node::Place(placement, vector));
                self.element(Element::Solid, levels)?;
                self.lexer.mark(Mark::Close)?;
                Ok(())
            }
            SolidForm::Join(operator) => {
                self.push(Node::Join(operator));
                self.element(Element::Solid, levels)?;
                self.element(Element::Solid, levels)?;
                self.lexer.mark(Mark::Close)?;
                Ok(())
            }
            SolidForm::Fold => {
                self.lexer.union_word()?;
                self.push(Node::Fold);
                self.list(Element::Solid, levels)?;
                self.lexer.mark(Mark::Close)?;
                Ok(())
            }
        }
    }

    #[cycle(reading)]
    fn list(&mut self, element: Element, levels: u16) -> Result<(), Refusal>
        ensures moved { Moved self.old result self.new }
        ensures read { HasRead (many (kind_of element) ∷ []) (said (left self.old)) self.old result self.new }
        ensures goes { Leads (λ gs. run (left self.old) (goal.list (kind_of element) levels ∷ gs) (count self.old)) result self.new }
    {
        let token = self.lexer.take()?;
        let TokenKind::Mark(Mark::Open) = token.kind else {
            return Err(Refusal::NoSolid(token.span));
        };
        self.room_for(levels, token.span)?;
        self.inside_list(element, levels - 1)
    }

    // The rest of a list after its bracket, whose parts have `levels` left.
    #[cycle(reading)]
    fn inside_list(&mut self, element: Element, levels: u16) -> Result<(), Refusal>
        requires len { count self.old < 640 }
        ensures moved { Moved self.old result self.new }
        ensures read { HasRead (many (kind_of element) ∷ []) (tokens.mark mark.Open ∷ said (left self.old)) self.old result self.new }
        ensures goes { Leads (λ gs. run (left self.old) (goal.in_list (kind_of element) levels ∷ gs) (count self.old + 1)) result self.new }
    {
        let token = self.lexer.take()?;
        let TokenKind::Word(word) = token.kind else {
            return Err(Refusal::NoSolid(token.span));
        };
        let form = list_form(element, word).ok_or(Refusal::NoSolid(token.span))?;
        match form {
            ListForm::Elements => {
                // How many elements it has is known at its end.
                let place = self.push(Node::List(0));
                let count = self.elements(element, levels)?;
                let draft = &mut *self.draft;
                draft.nodes[place] = Node::List(count);
                Ok(())
            }
            ListForm::Repeat => {
                let count = self.lexer.plain()?;
                self.push(Node::Repeat(count));
                self.element(element, levels)?;
                self.lexer.mark(Mark::Close)?;
                Ok(())
            }
            ListForm::Tabulate => {
                let count = self.lexer.loop_count()?;
                self.push(Node::Tabulate(count));
                self.element(element, levels)?;
                self.lexer.mark(Mark::Close)?;
                Ok(())
            }
            ListForm::Concat => {
                self.push(Node::Concat);
                self.list(element, levels)?;
                self.list(element, levels)?;
                self.lexer.mark(Mark::Close)?;
                Ok(())
            }
            ListForm::Map2 => {
                let placement = self.lexer.placement()?;
                self.push(Node::Map2(placement));
                self.list(Element::Vector, levels)?;
                self.list(Element::Solid, levels)?;
                self.lexer.mark(Mark::Close)?;
                Ok(())
            }
        }
    }

    // The elements that are left of a list and its closing bracket; says how many they were. By a call
    // of itself, since its contract is that of the list's rest.
    #[cycle(reading)]
    fn elements(&mut self, element: Element, levels: u16) -> Result<usize, Refusal>
        ensures moved { Moved self.old result self.new }
        ensures count { IfOk result (λ n. self.old.lexer.at + n < self.new.lexer.at) }
        ensures read { IfOk result (λ n. Read (replicate n (one (kind_of element))) (said (left self.old)) (tokens.mark mark.Close ∷ said (left self.new)) self.old.draft.now.nodes.items self.new.draft.now.nodes.items) }
        ensures goes { Leads (λ gs. run (left self.old) (goal.elements (kind_of element) levels ∷ gs) (count self.old)) result self.new }
    {
        let token = self.lexer.take()?;
        if is_close(token) {
            return Ok(0);
        }
        self.element_from(token, element, levels)?;
        let count = self.elements(element, levels)?;
        Ok(count + 1)
    }
}

// A whole text, into an empty table.
pub(crate) fn read_program(text: &[u8], out: &mut Draft) -> Result<(), Refusal>
    requires fresh { out.old.nodes.items ≡ [] }
    ensures read { OnOk result (Read (one solid ∷ []) (said (feed text.now 0)) [] [] out.new.nodes.items) }
    ensures goes { judged (feed text.now 0) ≡ after result (goal.whole (vec_len out.new.nodes)) }
{
    let mut reader = Reader {
        lexer: Lexer { text, at: 0 },
        draft: out,
    };
    reader.element(Element::Solid, MOST_LEVELS)?;
    if let Some(token) = reader.lexer.next()? {
        return Err(Refusal::NoSolid(token.span));
    }
    Ok(())
}
