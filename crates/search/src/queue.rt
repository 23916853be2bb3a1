//! A first-in-first-out queue over a lent slice.

ghost use Rattle.std.specs.Prelude.{◌≡◌, ◌+◌, ◌<◌, ◌≤◌, true, false, [], ◌∷◌, ◌++◌, length, Decides, nat_lt};
ghost use Rattle.search.specs.Waiting.{waiting, Fits, Popped};

/// A queue in a slice that is used as a ring: behind its last slot comes its first again.
// A lent slice and no `VecDeque`: the search allocates nothing.
#[derive(Drop)]
pub struct Queue<'a, T> {
    pub slots: &'a mut [T],
    /// The slot of the first that waits.
    pub head: usize,
    /// How many wait.
    pub len: usize,
    ghost fits: { Fits slots.now head len },
}

/// Writes an item behind those that wait.
fn put<T: Copy>(slots: &mut [T], head: usize, len: usize, item: T)
    requires fits { Fits slots.old head len }
    requires room { len < length slots.old }
    ensures { waiting slots.new head (len + 1) ≡ waiting slots.old head len ++ (item ∷ []) }
{
    let behind = slots.len() - head;
    let at = if len < behind {
        head + len
    } else {
        len - behind
    };
    slots[at] = item;
}

impl<'a, T: Copy> Queue<'a, T> {
    /// A queue in which nothing waits, whatever the slots hold.
    pub fn new(slots: &'a mut [T]) -> Queue<'a, T>
        ensures empty { result.len ≡ 0 }
        ensures head { result.head ≡ 0 }
        ensures slots { result.slots.now ≡ slots.entry.now }
        ensures lender { result.slots.ghost_name ≡ slots.entry.ghost_name }
    {
        Queue {
            slots,
            head: 0,
            len: 0,
        }
    }

    /// Whether nothing waits.
    pub fn is_empty(&self) -> bool
        ensures { Decides result (waiting self.now.slots.now self.now.head self.now.len ≡ []) }
    {
        self.len == 0
    }

    /// Lets an item wait behind all others. False, if there is no slot for it; nothing changes then.
    // A bool: there is nothing to tell but whether it fits.
    pub fn push(&mut self, item: T) -> bool
        ensures room { result ≡ nat_lt self.old.len (length self.old.slots.now) }
        ensures pushed { result ≡ true → waiting self.new.slots.now self.new.head self.new.len ≡ waiting self.old.slots.now self.old.head self.old.len ++ (item ∷ []) }
        ensures refused { result ≡ false → self.new ≡ self.old }
        ensures slots { length self.new.slots.now ≡ length self.old.slots.now }
        ensures lender { self.new.slots.ghost_name ≡ self.old.slots.ghost_name }
    {
        if self.len >= self.slots.len() {
            return false;
        }
        // Both are read before the slice is lent.
        let head = self.head;
        let len = self.len;
        put(self.slots, head, len, item);
        self.len = len + 1;
        true
    }

    /// Lets several items wait behind all others, in their order.
    pub fn push_all(&mut self, items: &[T])
        requires { self.old.len + length items.now ≤ length self.old.slots.now }
        ensures pushed { waiting self.new.slots.now self.new.head self.new.len ≡ waiting self.old.slots.now self.old.head self.old.len ++ items.now }
        ensures slots { length self.new.slots.now ≡ length self.old.slots.now }
        ensures lender { self.new.slots.ghost_name ≡ self.old.slots.ghost_name }
    {
        for item in items {
            let _ = self.push(*item);
        }
    }

    /// Takes the first of those that wait.
    pub fn pop(&mut self) -> Option<T>
        ensures popped { Popped result (waiting self.old.slots.now self.old.head self.old.len) (waiting self.new.slots.now self.new.head self.new.len) }
        ensures slots { self.new.slots.now ≡ self.old.slots.now }
        ensures lender { self.new.slots.ghost_name ≡ self.old.slots.ghost_name }
    {
        if self.len == 0 {
            return None;
        }
        let head = self.head;
        let item = self.slots[head];
        let next = if head + 1 < self.slots.len() {
            head + 1
        } else {
            0
        };
        self.head = next;
        self.len -= 1;
        Some(item)
    }
}
