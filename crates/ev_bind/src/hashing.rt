// The hash of a pair in front of others.
ghost use Rattle.std.specs.Prelude.{◌≡◌, fold};
ghost use Rattle.std.specs.List.{flat_map};
ghost use Rattle.std.specs.Hash.DefaultHasher as sip;
ghost use Rattle.ev_bind.specs.Hashing.{term_writes, code_after, pair_writes};

use event_model::{Slot, Term};
use std::hash::{DefaultHasher, Hash, Hasher};

#[cycle(hashing)]
#[tactic(auto, using(crate::specs::Hashing::term_feeds))]
fn feed_term(term: &Term, state: &mut DefaultHasher)
    ensures { state.new ≡ fold sip.write state.old (term_writes term.now) }
{
    match term {
        Term::Num(number) => {
            state.write_u64(0);
            state.write_i64(*number);
        }
        Term::Sym(name) => {
            state.write_u64(1);
            name.hash(state);
        }
        Term::Text(text) => {
            state.write_u64(2);
            text.hash(state);
        }
        Term::Comp(name, args) => {
            state.write_u64(3);
            state.write_usize(args.as_slice().len());
            feed_terms(args.as_slice(), state);
            name.hash(state);
        }
    }
}

#[cycle(hashing)]
fn feed_terms(terms: &[Term], state: &mut DefaultHasher)
    ensures { state.new ≡ fold sip.write state.old (flat_map term_writes terms.now) }
{
    for i in 0..terms.len() {
        feed_term(&terms[i], state);
    }
}

// The hash of a pair in front of pairs that have this hash.
#[tactic(auto, unfolding(crate::specs::Hashing::code_after))]
pub(crate) fn pair_code(slot: Slot, term: &Term, rest: u64) -> u64
    ensures { result ≡ code_after (pair_writes (slot, term.now) rest) }
{
    let mut state = DefaultHasher::new();
    state.write_u64(rest);
    state.write_u64(slot.number() as u64);
    feed_term(term, &mut state);
    state.finish()
}
