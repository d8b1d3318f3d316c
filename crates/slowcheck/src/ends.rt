//! Where runs can end.
use sheet::diagram::Variables;

/// Some pairs of x and y, each from 0 to 15: a row of bits for each x.
#[derive(Clone, Copy)]
pub struct Pairs {
    rows: [u16; 16],
}

impl Pairs {
    pub fn none() -> Pairs {
        Pairs { rows: [0; 16] }
    }

    pub fn add(&mut self, v: Variables) {
        if v.x < 16 && v.y < 16 {
            self.rows[v.x as usize] |= 1u16 << v.y;
        }
    }

    pub fn has(&self, v: Variables) -> bool {
        v.x < 16 && v.y < 16 && (self.rows[v.x as usize] >> v.y) % 2 == 1
    }

    /// Adds the pairs of another set.
    pub fn join(&mut self, other: &Pairs) {
        for (row, more) in self.rows.iter_mut().zip(&other.rows) {
            *row |= *more;
        }
    }

    /// Whether another set has all of these.
    pub fn within(&self, other: &Pairs) -> bool {
        self.rows
            .iter()
            .zip(&other.rows)
            .all(|(row, all)| *row & !*all == 0)
    }
}

/// The x and y at the ends of some runs, of the unmarked and of the marked ones.
#[derive(Clone, Copy)]
pub struct Ends {
    pub plain: Pairs,
    pub marked: Pairs,
}

impl Ends {
    pub fn none() -> Ends {
        Ends {
            plain: Pairs::none(),
            marked: Pairs::none(),
        }
    }

    /// Before any deed.
    pub fn start(v: Variables) -> Ends {
        let mut plain = Pairs::none();
        plain.add(v);
        Ends {
            plain,
            marked: Pairs::none(),
        }
    }

    pub fn join(&mut self, other: &Ends) {
        self.plain.join(&other.plain);
        self.marked.join(&other.marked);
    }

    pub fn within(&self, other: &Ends) -> bool {
        self.plain.within(&other.plain) && self.marked.within(&other.marked)
    }

    pub fn is_empty(&self) -> bool {
        self.within(&Ends::none())
    }

    /// The same ends, all marked.
    pub fn negated(&self) -> Ends {
        let mut marked = self.marked;
        marked.join(&self.plain);
        Ends {
            plain: Pairs::none(),
            marked,
        }
    }
}
