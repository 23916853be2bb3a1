//! The certificate of a file: its first place that is wrong. First all bytes are looked at, then the start states, then all arrows.

ghost use Rattle.std.specs.Prelude.{◌≡◌, ◌+◌, ◌<◌, nat_lt};
ghost use Rattle.model.specs.Automaton.{weight as weight_of};
ghost use Rattle.model.specs.Lists.{first};
ghost use Rattle.model.specs.File.{place, mark_in, bad_byte, bad_start, bad_arrow, first_broken};
ghost use Rattle.ctlfile.specs.Windows.{shown, For, Good, told, FirstNumber, bad_follower, byte_places_in, byte_places_to, arrow_places_from, arrow_places_in, arrow_places_of, arrow_places_to};

use crate::window::Window;
use model::refusal::Place;
use rules::Rule;

/// A place, with 0 where there is no situation or follower.
// 0 and no option: a refusal of a certificate tells four numbers, with 0 where there is none, as docs/FILE.md says.
fn place_at(state: u16, situation: u8, rule_state: u8, follower: u8) -> Place
    ensures { result ≡ place state situation rule_state follower }
{
    Place {
        state,
        situation,
        rule_state,
        follower,
    }
}

// The first of lists of places is looked for by `for`, and not by `find_map`: tried, the proof did not close.

impl Window<'_> {
    /// Whether the byte of a rule state in a state is neither FF nor at most c.
    fn is_bad_byte(&self, state: u16, rule_state: u8) -> bool
        requires known_state { state < self.now.states }
        requires known_rule_state { rule_state < self.now.rule_states }
        ensures { result ≡ bad_byte (shown self.now) (place state 0 rule_state 0) }
    {
        self.mark_at(state, rule_state) > self.count + 1
    }

    /// The first byte of a state that is neither FF nor at most c.
    fn first_bad_byte_in(&self, state: u16) -> Option<Place>
        requires { state < self.now.states }
        ensures { result ≡ told (first (bad_byte (shown self.now)) (byte_places_in self.now.rule_states state)) }
    {
        (0..self.rule_states)
            .find(|rule_state| self.is_bad_byte(state, *rule_state))
            .map(|rule_state| place_at(state, 0, rule_state, 0))
    }

    /// The first byte that is neither FF nor at most c, by state and rule state.
    fn first_bad_byte(&self) -> Option<Place>
        ensures { result ≡ told (first (bad_byte (shown self.now)) (byte_places_to self.now.rule_states self.now.states)) }
    {
        for state in 0..self.states {
            if let Some(place) = self.first_bad_byte_in(state) {
                return Some(place);
            }
        }
        None
    }
}

/// Where arrows start, and where they lead: a rule state with its mark in a state, under the state's command in a situation, and
/// the next state.
#[derive(Clone, Copy)]
struct Source {
    rule_state: u8,
    mark: u8,
    command: u8,
    situation: u8,
    next: u16,
}

/// A window on a file for the rule, whose records are good: what is left to look at is its certificate.
#[derive(Drop)]
pub struct Candidate<'a, R: Rule> {
    pub rule: &'a R,
    pub window: Window<'a>,
    ghost fits: { For (R.Rule.meaning rule.now) window },
    ghost good: { Good (R.Rule.meaning rule.now) window },
}

impl<R: Rule> Candidate<'_, R> {
    /// Whether a rule state in a state has not at least the mark, and 1 more if it is rejecting.
    fn falls_short(&self, state: u16, rule_state: u8, mark: u8) -> bool
        requires known_state { state < self.now.window.states }
        requires known_rule_state { rule_state < self.now.window.rule_states }
        ensures { result ≡ nat_lt (mark_in (shown self.now.window) state rule_state) (mark + weight_of (R.Rule.meaning self.now.rule.now) rule_state) }
    {
        let has = self.window.mark_at(state, rule_state);
        if self.rule.rejects(rule_state) {
            has <= mark
        } else {
            has < mark
        }
    }

    /// Whether a rule state starts, but is not present in state 0, or is rejecting and has not at least 1.
    fn is_bad_start(&self, rule_state: u8) -> bool
        requires { rule_state < self.now.window.rule_states }
        ensures { result ≡ bad_start (R.Rule.meaning self.now.rule.now) (shown self.now.window) (place 0 0 rule_state 0) }
    {
        self.rule.starts(rule_state) && self.falls_short(0, rule_state, 1)
    }

    /// The first bad start.
    fn first_bad_start(&self) -> Option<Place>
        ensures { result ≡ told (first (bad_start (R.Rule.meaning self.now.rule.now) (shown self.now.window)) (byte_places_in self.now.window.rule_states 0)) }
    {
        (0..self.window.rule_states)
            .find(|rule_state| self.is_bad_start(*rule_state))
            .map(|rule_state| place_at(0, 0, rule_state, 0))
    }

    /// Whether the follower follows, but is not present in the next state with at least the mark, and 1 more if it is rejecting.
    fn is_bad_arrow(&self, source: Source, follower: u8) -> bool
        requires known_states { (source.rule_state < self.now.window.rule_states) × (follower < self.now.window.rule_states) }
        requires known_command { source.command < (R.Rule.meaning self.now.rule.now).commands }
        requires known_situation { source.situation < self.now.window.situations }
        requires known_next { source.next < self.now.window.states }
        ensures { result ≡ bad_follower (R.Rule.meaning self.now.rule.now) (shown self.now.window) source follower }
    {
        self.rule.follows(
            source.rule_state,
            source.command,
            source.situation,
            follower,
        ) && self.falls_short(source.next, follower, source.mark)
    }

    /// The follower of the first bad arrow.
    fn first_bad_follower(&self, source: Source) -> Option<u8>
        requires known_rule_state { source.rule_state < self.now.window.rule_states }
        requires known_command { source.command < (R.Rule.meaning self.now.rule.now).commands }
        requires known_situation { source.situation < self.now.window.situations }
        requires known_next { source.next < self.now.window.states }
        ensures { FirstNumber (bad_follower (R.Rule.meaning self.now.rule.now) (shown self.now.window) source) self.now.window.rule_states result }
    {
        (0..self.window.rule_states).find(|follower| self.is_bad_arrow(source, *follower))
    }

    /// The first bad arrow from a rule state in a state and a situation.
    fn first_bad_arrow_from(&self, state: u16, situation: u8, rule_state: u8) -> Option<Place>
        requires known_state { state < self.now.window.states }
        requires known_situation { situation < self.now.window.situations }
        requires known_rule_state { rule_state < self.now.window.rule_states }
        ensures { result ≡ told (first (bad_arrow (R.Rule.meaning self.now.rule.now) (shown self.now.window)) (arrow_places_from self.now.window.rule_states state situation rule_state)) }
    {
        let mark = self.window.mark_at(state, rule_state);
        if mark == 0 {
            return None;
        }
        let source = Source {
            rule_state,
            mark,
            command: self.window.command_at(state),
            situation,
            next: self.window.next_at(state, situation),
        };
        let place = |follower| place_at(state, situation, rule_state, follower);
        self.first_bad_follower(source).map(place)
    }

    /// The first bad arrow in a state and a situation.
    fn first_bad_arrow_in(&self, state: u16, situation: u8) -> Option<Place>
        requires known_state { state < self.now.window.states }
        requires known_situation { situation < self.now.window.situations }
        ensures { result ≡ told (first (bad_arrow (R.Rule.meaning self.now.rule.now) (shown self.now.window)) (arrow_places_in self.now.window.rule_states state situation)) }
    {
        for rule_state in 0..self.window.rule_states {
            if let Some(place) = self.first_bad_arrow_from(state, situation, rule_state) {
                return Some(place);
            }
        }
        None
    }

    /// The first bad arrow in a state.
    fn first_bad_arrow_of(&self, state: u16) -> Option<Place>
        requires { state < self.now.window.states }
        ensures { result ≡ told (first (bad_arrow (R.Rule.meaning self.now.rule.now) (shown self.now.window)) (arrow_places_of self.now.window.situations self.now.window.rule_states state)) }
    {
        for situation in 0..self.window.situations {
            if let Some(place) = self.first_bad_arrow_in(state, situation) {
                return Some(place);
            }
        }
        None
    }

    /// The first bad arrow, by state, situation, rule state and follower.
    fn first_bad_arrow(&self) -> Option<Place>
        ensures { result ≡ told (first (bad_arrow (R.Rule.meaning self.now.rule.now) (shown self.now.window)) (arrow_places_to self.now.window.situations self.now.window.rule_states self.now.window.states)) }
    {
        for state in 0..self.window.states {
            if let Some(place) = self.first_bad_arrow_of(state) {
                return Some(place);
            }
        }
        None
    }

    /// The first place of the certificate that is wrong.
    pub fn first_bad_place(&self) -> Option<Place>
        ensures { result ≡ told (first_broken (R.Rule.meaning self.now.rule.now) (shown self.now.window)) }
    {
        if let Some(place) = self.window.first_bad_byte() {
            return Some(place);
        }
        if let Some(place) = self.first_bad_start() {
            return Some(place);
        }
        self.first_bad_arrow()
    }
}
