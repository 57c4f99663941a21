//! The clock hand, which goes over the backing pages again and again.

ghost use Rattle.std.specs.Prelude.{◌≡◌, ◌<◌};
ghost use Rattle.nm_policy.specs.Hand.{first_page, next_page};

use std::marker::Model;

/// A hand that stands at one of a number of pages.
#[derive(Clone, Copy, Debug, PartialEq, Eq)]
pub struct Hand {
    pages: u32,
    at: u32,
}

impl Model for Hand {
    ghost use Rattle.std.specs.Prelude.{◌<◌};
    ghost use Rattle.nm_policy.specs.Hand as plain;

    ghost Value = { plain.Hand };

    ghost view = { λ h. record { pages = h.pages; at = h.at } };

    ghost invariant = { λ h. h.at < h.pages };

    ghost inverse = { λ h. record { pages = h.pages; at = h.at } };
}

impl Hand {
    /// A hand over this many pages, at least one. It stands at page 0.
    pub fn new(pages: u32) -> Hand
        requires { 0 < pages }
        ensures { result ≡ first_page pages }
    {
        Hand { pages, at: 0 }
    }

    /// The page at which the hand stands, below the number of pages.
    pub fn page(&self) -> u32
        ensures at { result ≡ self.now.at }
        ensures within { result < self.now.pages }
    {
        self.at
    }

    /// Puts the hand on by one page, from the last to page 0.
    pub fn advance(&mut self)
        ensures { self.new ≡ next_page self.old }
    {
        self.at += 1;
        if self.at == self.pages {
            self.at = 0;
        }
    }
}
