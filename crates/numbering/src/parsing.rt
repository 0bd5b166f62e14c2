//! The parse of tokens, with the rank of each part.

ghost use Rattle.std.specs.Prelude.{◌≡◌, ◌+◌, ◌*◌, ◌≤◌, length};
ghost use Rattle.table.specs.GrammarCountsOf.{grammar_of, bound_of};
ghost use Rattle.numbering.specs.Frames.{room_of, ParseStops, ParseAnswer};

use crate::frame::{Frame, Part};
use crate::ranking::Ranking;
use fault::Fault;
use grammar::{Grammar, Symbol};
use stack::Stack;
use walk::LengthPolicy;

/// A parse stops when so many tokens are gone.
#[derive(Clone, Copy, Debug)]
pub(crate) struct Stopped {
    pub(crate) gone: usize,
}

impl From<Stopped> for Fault {
    ghost use Rattle.fault.specs.declared.Fault.TheVariants.{ParseStopped};

    ghost from_gives = { λ e f. f ≡ ParseStopped e.gone };

    fn from(stopped: Stopped) -> Fault {
        Fault::ParseStopped(stopped.gone as u64)
    }
}

/// A parse of tokens: the frame at work, those that are suspended, and how many tokens are gone.
// Where it stands (`Stands`) is a clause of its methods: a ghost field would keep that it is so, and not the rank that the answer is read from.
// `gone`, not a shorter slice of tokens: where a parse stops, the fault names it.
#[derive(Drop)]
pub(crate) struct Parse<'a, G: Grammar, O> {
    ranking: Ranking<'a, G, O>,
    tokens: &'a [u8],
    suspended: Stack<'a, Frame>,
    frame: Frame,
    gone: usize,
    ghost short: { length tokens.now ≤ bound_of ranking.counts.now },
    ghost room: { (length tokens.now + 1) * (grammar_of ranking.counts.now).nonterminals ≤ room_of suspended },
}

impl<'a, G: Grammar, O: LengthPolicy> Parse<'a, G, O> {
    ghost use Rattle.std.specs.Prelude.{MatchResult, drop};
    ghost use Rattle.theory.specs.Sets.{next_of};
    ghost use Rattle.grammar.specs.Interface.{next_of_lookahead};
    ghost use Rattle.numbering.specs.Parses.{Stands, symbol_here, ParseOf, Goes, Stops, Opens, StepAnswer};

    /// The parse at the front of the slot that is chosen for the start, with a stack for the frames that are suspended.
    pub(crate) fn begin(
        ranking: Ranking<'a, G, O>,
        tokens: &'a [u8],
        stack: &'a mut [Frame],
    ) -> Result<Parse<'a, G, O>, Stopped>
        requires short { length tokens.now ≤ bound_of ranking.counts.now }
        requires room { (length tokens.now + 1) * (grammar_of ranking.counts.now).nonterminals ≤ length stack.old }
        ensures { MatchResult result (ParseOf O.order ranking.entry tokens.now) (ParseStops (grammar_of ranking.entry.counts.now) (G.chosen ranking.entry.counts.now.grammar.now) tokens.now) }
    {
        let grammar = ranking.counts.grammar;
        let slot = grammar
            .choice(grammar.start(), tokens.first().copied())
            .ok_or(Stopped { gone: 0 })?;
        Ok(Parse {
            ranking,
            tokens,
            suspended: Stack::over(stack),
            frame: Frame {
                slot,
                ..Frame::blank()
            },
            gone: 0,
        })
    }

    // The next token; none at the end.
    fn lookahead(&self) -> Option<u8>
        ensures { next_of_lookahead result ≡ next_of (drop self.now.gone self.now.tokens.now) }
    {
        self.tokens.get(self.gone).copied()
    }

    // Passes terminal `t`.
    fn pass(&mut self, t: u8) -> Result<(), Stopped>
        requires at { Stands O.order self.old }
        requires here { Some (Symbol.Terminal t) ≡ symbol_here self.old }
        ensures goes { MatchResult result (λ _. Goes O.order self.old self.new) (Stops self.old) }
        ensures room { room_of self.new.suspended ≡ room_of self.old.suspended }
    {
        if self.lookahead() != Some(t) {
            return Err(Stopped { gone: self.gone });
        }
        self.frame.note(Part { length: 1, rank: 0 });
        self.gone += 1;
        Ok(())
    }

    // Suspends the frame at work and begins one for nonterminal `a`.
    fn open(&mut self, a: u8) -> Result<(), Stopped>
        requires at { Stands O.order self.old }
        requires here { Some (Symbol.Nonterminal a) ≡ symbol_here self.old }
        ensures goes { MatchResult result (λ _. Goes O.order self.old self.new) (Stops self.old) }
        ensures opens { Opens (G.chosen self.old.ranking.counts.now.grammar.now a (next_of (drop self.old.gone self.old.tokens.now))) self.old self.new result }
        ensures room { room_of self.new.suspended ≡ room_of self.old.suspended }
    {
        let grammar = self.ranking.counts.grammar;
        let slot = grammar
            .choice(a, self.lookahead())
            .ok_or(Stopped { gone: self.gone })?;
        self.suspended.push(self.frame).unwrap();
        self.frame.begin(slot);
        Ok(())
    }

    // Leaves the frame at work, all of whose symbols have their parts, for the last suspended one; where there is none, answers the rank of the tokens.
    fn close(&mut self) -> Result<Option<u64>, Stopped>
        requires at { Stands O.order self.old }
        requires here { None ≡ symbol_here self.old }
        ensures answer { StepAnswer O.order self.old self.new result }
        ensures room { room_of self.new.suspended ≡ room_of self.old.suspended }
    {
        let part = self.ranking.whole_part(&self.frame);
        if let Some(below) = self.suspended.pop() {
            self.frame = below;
            self.frame.note(part);
            return Ok(None);
        }
        if self.gone < self.tokens.len() {
            return Err(Stopped { gone: self.gone });
        }
        Ok(Some(part.rank))
    }

    // One step; answers the rank of the tokens once they are parsed.
    fn step(&mut self) -> Result<Option<u64>, Stopped>
        requires { Stands O.order self.old }
        ensures answer { StepAnswer O.order self.old self.new result }
        ensures room { room_of self.new.suspended ≡ room_of self.old.suspended }
    {
        let grammar = self.ranking.counts.grammar;
        match grammar.symbol_at(self.frame.slot, self.frame.position) {
            Some(Symbol::Terminal(t)) => self.pass(t)?,
            Some(Symbol::Nonterminal(a)) => self.open(a)?,
            None => return self.close(),
        }
        Ok(None)
    }
}

/// The rank of the tokens among the sentences of the start, with a stack for the frames that are suspended.
pub(crate) fn rank<'a, G: Grammar, O: LengthPolicy>(
    ranking: Ranking<'a, G, O>,
    tokens: &'a [u8],
    stack: &'a mut [Frame],
) -> Result<u64, Stopped>
    requires short { length tokens.now ≤ bound_of ranking.counts.now }
    requires room { (length tokens.now + 1) * (grammar_of ranking.counts.now).nonterminals ≤ length stack.old }
    ensures { ParseAnswer (O.order ranking.entry.policy.now) (grammar_of ranking.entry.counts.now) (G.chosen ranking.entry.counts.now.grammar.now) tokens.now result }
{
    let mut parse = Parse::begin(ranking, tokens, stack)?;
    loop {
        if let Some(rank) = parse.step()? {
            return Ok(rank);
        }
    }
}
