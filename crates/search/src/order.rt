// What the search asks of a kind of element: an order that compares any two and is transitive.
ghost use Rattle.std.specs.Prelude.{◌≡◌, Bool, true, not, ◌⊎◌};

// An order in which any two sound elements compare, and which is transitive among them.
// Two elements that each come no later than the other tie; they need not be equal.
pub trait TotalOrder {
    // Holds of the elements for which the two laws are promised.
    ghost sound: { Self → Type 0 };

    // Whether the first element comes no later than the second.
    ghost upto: { Self → Self → Bool };

    // Whether this element comes strictly before the other one.
    fn comes_before(&self, other: &Self) -> bool
        ensures { result ≡ not (upto other.now self.now) };

    ghost total: { (x y : Self) → sound x → sound y → (upto x y ≡ true) ⊎ (upto y x ≡ true) };

    ghost transitive: { (x y z : Self) → sound x → sound y → sound z → upto x y ≡ true → upto y z ≡ true → upto x z ≡ true };
}
