// Single tokens that the grammar asks for.
ghost use Rattle.std.specs.Prelude.{◌≡◌, ℕ, ◌<◌, ◌≤◌, List, [], ◌∷◌, ◌++◌, length, IfOk};
ghost use Rattle.model.specs.Tokens.{placement_word, bracket};
ghost use Rattle.model.specs.declared.word.Mark.TheVariants as mark;
ghost use Rattle.model.specs.declared.word.Word.TheVariants as word;
ghost use Rattle.model.specs.Tokens as tokens;
ghost use Rattle.model.specs.Feed.{said};
ghost use Rattle.model.specs.Grammar.{Goal, run};
ghost use Rattle.model.specs.Grammar as goal;
ghost use Rattle.text.specs.Lexer.{ahead};
ghost use Rattle.text.specs.Reading.{Ahead, Goes, Takes, Took};

use super::form::placement_of;
use super::token::{Lexer, Token, TokenKind};
use model::{Linear, Mark, Numeral, Placement, Refusal, Span, Triple, Word};

// `Ahead`, `Took` and `Goes` tell of a call, and no type of the lexer can: so the contracts have
// them, but for that of `take`, which has `Takes`.
impl Lexer<'_> {
    // The next token; a text that ends here is refused at a span of no bytes, since no token stands there.
    pub(crate) fn take(&mut self) -> Result<Token, Refusal>
        ensures ahead { Ahead self.old result self.new }
        ensures takes { Takes self.old result self.new }
    {
        let token = self.next()?;
        token.ok_or(Refusal::NoSolid(Span {
            at: self.at,
            len: 0,
        }))
    }

    pub(crate) fn mark(&mut self, wanted: Mark) -> Result<(), Refusal>
        ensures ahead { Ahead self.old result self.new }
        ensures took { Took (λ _. tokens.mark wanted ∷ []) self.old result self.new }
        ensures goes { Goes (λ gs. goal.mark wanted ∷ gs) self.old result self.new }
    {
        let token = self.take()?;
        match token.kind {
            TokenKind::Mark(mark) if mark == wanted => Ok(()),
            _ => Err(Refusal::NoSolid(token.span)),
        }
    }

    // A number without slope: a kind or a count.
    pub(crate) fn plain(&mut self) -> Result<i64, Refusal>
        ensures ahead { Ahead self.old result self.new }
        ensures took { Took (λ k. tokens.plain k ∷ []) self.old result self.new }
        ensures goes { Goes (λ gs. goal.plain ∷ gs) self.old result self.new }
    {
        let token = self.take()?;
        match token.kind {
            TokenKind::Number(Numeral { constant, slope: 0 }) => Ok(constant),
            _ => Err(Refusal::NoSolid(token.span)),
        }
    }

    // A number in a bracket.
    pub(crate) fn entry(&mut self) -> Result<Numeral, Refusal>
        ensures ahead { Ahead self.old result self.new }
        ensures took { Took (λ v. tokens.number v.constant v.slope ∷ []) self.old result self.new }
        ensures goes { Goes (λ gs. goal.entry ∷ gs) self.old result self.new }
    {
        let token = self.take()?;
        match token.kind {
            TokenKind::Number(number) => Ok(number),
            _ => Err(Refusal::NoSolid(token.span)),
        }
    }

    // The word `Union` after `Fold`. One function for it and `index_word` would need a table from words
    // to goals, and be longer.
    pub(crate) fn union_word(&mut self) -> Result<(), Refusal>
        ensures ahead { Ahead self.old result self.new }
        ensures took { Took (λ _. tokens.word word.Union ∷ []) self.old result self.new }
        ensures goes { Goes (λ gs. goal.union ∷ gs) self.old result self.new }
    {
        let token = self.take()?;
        match token.kind {
            TokenKind::Word(Word::Union) => Ok(()),
            _ => Err(Refusal::NoSolid(token.span)),
        }
    }

    // The word `i` after `(Tabulate (`.
    pub(crate) fn index_word(&mut self) -> Result<(), Refusal>
        ensures ahead { Ahead self.old result self.new }
        ensures took { Took (λ _. tokens.word word.Index ∷ []) self.old result self.new }
        ensures goes { Goes (λ gs. goal.index ∷ gs) self.old result self.new }
    {
        let token = self.take()?;
        match token.kind {
            TokenKind::Word(Word::Index) => Ok(()),
            _ => Err(Refusal::NoSolid(token.span)),
        }
    }

    // The placement of a Map2.
    pub(crate) fn placement(&mut self) -> Result<Placement, Refusal>
        ensures ahead { Ahead self.old result self.new }
        ensures took { Took (λ t. tokens.word (placement_word t) ∷ []) self.old result self.new }
        ensures goes { Goes (λ gs. goal.placement ∷ gs) self.old result self.new }
    {
        let token = self.take()?;
        let TokenKind::Word(word) = token.kind else {
            return Err(Refusal::NoSolid(token.span));
        };
        placement_of(word).ok_or(Refusal::NoSolid(token.span))
    }

    // The loop of a Tabulate, `(i n)`: its count.
    pub(crate) fn loop_count(&mut self) -> Result<i64, Refusal>
        ensures ahead { Ahead self.old result self.new }
        ensures took { Took (λ k. tokens.mark mark.Open ∷ tokens.word word.Index ∷ tokens.plain k ∷ tokens.mark mark.Close ∷ []) self.old result self.new }
        ensures goes { Goes (λ gs. goal.mark mark.Open ∷ goal.index ∷ goal.plain ∷ goal.mark mark.Close ∷ gs) self.old result self.new }
    {
        self.mark(Mark::Open)?;
        self.index_word()?;
        let count = self.plain()?;
        self.mark(Mark::Close)?;
        Ok(count)
    }

    // The rest of a vector, after its bracket.
    pub(crate) fn entries(&mut self) -> Result<Linear, Refusal>
        ensures ahead { Ahead self.old result self.new }
        ensures took { IfOk result (λ v. tokens.mark mark.Left ∷ said (ahead self.old) ≡ bracket v ++ said (ahead self.new)) }
        ensures goes { Goes (λ gs. goal.entries gs) self.old result self.new }
    {
        let x = self.entry()?;
        self.mark(Mark::Comma)?;
        let y = self.entry()?;
        self.mark(Mark::Comma)?;
        let z = self.entry()?;
        self.mark(Mark::Right)?;
        // By its fields: nowhere else are three such numbers made one vector.
        Ok(Linear {
            constant: Triple {
                x: x.constant,
                y: y.constant,
                z: z.constant,
            },
            slope: Triple {
                x: x.slope,
                y: y.slope,
                z: z.slope,
            },
        })
    }

    // A vector.
    pub(crate) fn bracket(&mut self) -> Result<Linear, Refusal>
        ensures ahead { Ahead self.old result self.new }
        ensures took { Took (λ v. bracket v) self.old result self.new }
        ensures goes { Goes (λ gs. goal.mark mark.Left ∷ goal.entries gs) self.old result self.new }
    {
        self.mark(Mark::Left)?;
        self.entries()
    }
}
