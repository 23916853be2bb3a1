//! The largest safe set in a table of links, and the lowest command that stays in it.

ghost use Rattle.std.specs.Prelude.{◌≡◌, ℕ, ◌<◌, ◌≤◌, true, false, length, MatchOption};
ghost use Rattle.synthesis.specs.Safety.{flag, Holding, into, Keeping, Closed, Widest, Safest, trues, stays_under, lowest_kept};

use crate::graphs::Chosen;

/// How many commands and situations there are.
// At most 8, and none too: rules::Numbers begins at 1, and a table's functions never asked that.
#[derive(Clone, Copy)]
pub struct Numbers {
    pub commands: u8,
    pub situations: u8,
    ghost few_commands: { commands ≤ 8 },
    ghost few_situations: { situations ≤ 8 },
}

/// Whether the place is in the set.
pub fn is_safe(safe: &[bool], place: usize) -> bool
    ensures { result ≡ flag safe.now place }
{
    safe.get(place).copied().unwrap_or(false)
}

// A place and a command have a bound each, asked where they come in.

impl Chosen<'_> {
    /// Whether the link leads into the set.
    fn leads_inside(&self, link: Option<u16>) -> bool
        ensures { result ≡ into (flag self.now.safe.now) link }
    {
        match link {
            Some(place) => is_safe(self.safe, place as usize),
            None => false,
        }
    }

    /// Whether under the command every situation leads into the set.
    fn holds(&self, place: usize, command: u8) -> bool
        requires known_place { place < length self.now.safe.now }
        requires known_command { command < 8 }
        ensures { result ≡ stays_under self.now.numbers.situations self.now.links.now self.now.safe.now place command }
    {
        let row = &self.links[place];
        (0..self.numbers.situations).all(|situation| self.leads_inside(
            row[command as usize * 8 + situation as usize],
        ))
    }

    /// The first command that holds.
    #[tactic(auto, unfolding(crate::specs::Safety::lowest_kept))]
    fn first_to_hold(&self, place: usize) -> Option<u8>
        requires { place < length self.now.safe.now }
        ensures { result ≡ lowest_kept self.now.numbers.commands self.now.numbers.situations self.now.links.now self.now.safe.now place }
    {
        (0..self.numbers.commands).find(|command| self.holds(place, *command))
    }

    /// The lowest command under which every situation leads into the set.
    pub fn lowest_command(&self, place: usize) -> Option<u8>
        requires { place < length self.now.safe.now }
        ensures lowest { MatchOption result ((u : ℕ) → u < self.now.numbers.commands → Holding self.now.numbers.situations self.now.links.now (flag self.now.safe.now) place u → ⊥) (λ u. (u < self.now.numbers.commands) × Holding self.now.numbers.situations self.now.links.now (flag self.now.safe.now) place u × ((v : ℕ) → v < u → Holding self.now.numbers.situations self.now.links.now (flag self.now.safe.now) place v → ⊥)) }
        ensures value { result ≡ lowest_kept self.now.numbers.commands self.now.numbers.situations self.now.links.now self.now.safe.now place }
    {
        self.first_to_hold(place)
    }

    /// Whether the place is not in the set, or some command keeps it there.
    fn stays(&self, place: usize) -> bool
        requires { place < length self.now.safe.now }
        ensures kept { result ≡ true → flag self.now.safe.now place ≡ true → Keeping self.now.numbers.commands self.now.numbers.situations self.now.links.now (flag self.now.safe.now) place }
        ensures lost { result ≡ false → (flag self.now.safe.now place ≡ true) × (Keeping self.now.numbers.commands self.now.numbers.situations self.now.links.now (flag self.now.safe.now) place → ⊥) }
    {
        !self.safe[place] || self.lowest_command(place).is_some()
    }
}

/// Takes the places out of the set that no command keeps there. Says whether there was one.
fn prune(numbers: Numbers, links: &[[Option<u16>; 64]], safe: &mut [bool]) -> bool
    requires rows { length safe.old ≤ length links.now }
    ensures widest { Widest numbers.commands numbers.situations links.now safe.old → Widest numbers.commands numbers.situations links.now safe.new }
    ensures closed { result ≡ false → Closed numbers.commands numbers.situations (length safe.new) links.now (flag safe.new) }
    ensures fewer { result ≡ true → trues safe.new < trues safe.old }
{
    let mut pruned = false;
    // By index: an iterator of the set lends it, and each look is at the whole of it.
    for place in 0..safe.len() {
        let chosen = Chosen {
            numbers,
            links,
            safe: &*safe,
        };
        if !chosen.stays(place) {
            safe[place] = false;
            pruned = true;
        }
    }
    pruned
}

/// Flags the largest safe set: each of its places has a command under which every situation leads into the set.
pub fn safe_part(numbers: Numbers, links: &[[Option<u16>; 64]], safe: &mut [bool])
    requires rows { length safe.old ≤ length links.now }
    ensures { Safest numbers.commands numbers.situations links.now safe.new }
{
    safe.fill(true);
    while prune(numbers, links, safe) {}
}
