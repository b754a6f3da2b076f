// "`Element`: a number, with constants and tests belonging to its type" (elements.rs).
#![tactic(auto)]

ghost use Rattle.std.specs.Prelude.{◌≡◌, leb};
ghost use Rattle.elements.specs.Element.{element_of};

#[derive(Clone, Copy)]
pub struct Element {
    pub number: u64,
}

impl Element {
    // H
    pub const FIRST: u64 = 1;

    // Og
    pub const LAST: u64 = 118;

    // "elements 1..118", as a tree's parameter is, and an element that is set
    pub fn from_number(n: u64) -> Option<Element>
        ensures { result ≡ element_of n }
    {
        if (Self::FIRST <= n) & (n <= Self::LAST) {
            Some(Element { number: n })
        } else {
            None
        }
    }

    // "element 1..118 or 0 missing", as an atom's word is
    pub fn is_stored(n: u64) -> bool
        ensures { result ≡ leb n 118 }
    {
        n <= Self::LAST
    }
}
