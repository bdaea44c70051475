// The open lists.
ghost use Rattle.std.specs.Prelude.{◌≡◌, ◌+◌, ◌-◌, ◌<◌, get_or};
ghost use Rattle.plain.specs.declared.lists.ListKind.TheVariants.{Many, Resolvers};
ghost use Rattle.plain.specs.Nested.{Nested};

// "agent level 8"; "a level 8 agent may open an empty resolver list": a ninth.
pub const LISTS_MOST: usize = 9;

// What an open list is: a parameter's list of agents or a received object, the one agent of `from`, or resolvers.
#[derive(Clone, Copy, PartialEq, Eq)]
pub enum ListKind {
    Many,
    One,
    Resolvers,
}

// The open lists, the outermost first, and how many they are: the level. Behind the first all are resolvers, and the first is none. Document 01's named
// form: "the open lists held in an array of fixed size, and its depth". The depth is one byte: docs/DECISIONS.md.
#[derive(Clone, Copy)]
pub struct Lists {
    kinds: [ListKind; LISTS_MOST],
    depth: u8,
    ghost nested: { Nested kinds depth },
}

impl Lists {
    ghost use Rattle.plain.specs.Lists.{innermost};

    // No list is open: envelope level.
    pub fn none() -> Lists
        ensures { result.depth ≡ 0 }
    {
        Lists {
            kinds: [ListKind::Many; LISTS_MOST],
            depth: 0,
        }
    }

    // One list, of this kind.
    pub fn one(kind: ListKind) -> Lists
        requires { kind ≡ Resolvers → ⊥ }
        ensures { (result.depth ≡ 1) × (get_or result.kinds 0 Many ≡ kind) }
    {
        Lists {
            kinds: [kind; LISTS_MOST],
            depth: 1,
        }
    }

    // How many lists are open: the level of rows.
    pub fn level(self) -> u32
        ensures { result ≡ self.depth }
    {
        self.depth as u32
    }

    // Answers what the innermost open list is.
    pub fn innermost(self) -> Option<ListKind>
        ensures { result ≡ innermost self }
    {
        let depth = self.depth;
        if depth == 0 {
            return None;
        }
        let kinds = self.kinds;
        Some(kinds[depth as usize - 1])
    }

    // Resolvers are opened in the innermost list.
    pub fn deeper(self) -> Lists
        requires { (0 < self.depth) × (self.depth < 9) }
        ensures { (result.depth ≡ self.depth + 1) × (get_or result.kinds 0 Many ≡ get_or self.kinds 0 Many) }
    {
        let depth = self.depth;
        let mut kinds = self.kinds;
        kinds[depth as usize] = ListKind::Resolvers;
        Lists {
            kinds,
            depth: depth + 1,
        }
    }

    // The innermost list ends.
    pub fn ended(self) -> Lists
        requires { 0 < self.depth }
        ensures { (result.depth ≡ self.depth - 1) × (result.kinds ≡ self.kinds) }
    {
        let kinds = self.kinds;
        Lists {
            kinds,
            depth: self.depth - 1,
        }
    }
}
