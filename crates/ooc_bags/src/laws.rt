//! Laws of bags. The functions do nothing; their contracts say the laws.
ghost use Rattle.std.specs.Prelude.{◌≡◌, ◌↔◌, ℕ, Bool, List, ◌++◌, map, filter, flat_map, sum_by, count_by, fold, min};
ghost use Rattle.std.specs.Bool.{Decides};
ghost use Rattle.ooc_types.specs.declared.value.Value.{Value};
ghost use Rattle.ooc_bags.specs.Bags.{SameBag};
ghost use Rattle.ooc_bags.specs.Rows.{row_eq};
ghost use Rattle.ooc_bags.specs.Rearranged.{IsRearranged};
ghost use Rattle.ooc_bags.specs.Parts.{part, AreParts};
ghost use Rattle.ooc_bags.specs.Firsts.{firsts};

/// What is the same bag with a list is so in each turn and along a chain.
pub fn same_bags_are_an_equivalence<A>()
    ensures itself { (xs : List A) → SameBag xs xs }
    ensures turned { (xs ys : List A) → SameBag xs ys → SameBag ys xs }
    ensures chained { (xs ys zs : List A) → SameBag xs ys → SameBag ys zs → SameBag xs zs }
{}

/// Lists put together, and their items mapped, filtered or replaced by lists, are the same bag where what they came from
/// is.
pub fn bags_stay_the_same<A, B>()
    ensures append { (xs ys us vs : List A) → SameBag xs ys → SameBag us vs → SameBag (xs ++ us) (ys ++ vs) }
    ensures swap { (xs ys : List A) → SameBag (xs ++ ys) (ys ++ xs) }
    ensures map { (f : A → B) (xs ys : List A) → SameBag xs ys → SameBag (map f xs) (map f ys) }
    ensures filter { (p : A → Bool) (xs ys : List A) → SameBag xs ys → SameBag (filter p xs) (filter p ys) }
    ensures flat_map { (f g : A → List B) (xs ys : List A) → SameBag xs ys → ((x : A) → SameBag (f x) (g x)) → SameBag (flat_map f xs) (flat_map g ys) }
    ensures sum { (f : A → ℕ) (xs ys : List A) → SameBag xs ys → sum_by f xs ≡ sum_by f ys }
{}

/// Nested loops give the same bag in the other order.
pub fn loops_stand_in_either_order<A, B, C>()
    ensures { (f : A → B → List C) (xs : List A) (ys : List B) → SameBag (flat_map (λ x. flat_map (f x) ys) xs) (flat_map (λ y. flat_map (λ x. f x y) xs) ys) }
{}

/// The parts of a list, put together, are the list; and each part by itself, where an item in its own part gives what it
/// gives.
pub fn parts_make_the_whole<A, B>()
    ensures whole { (number : A → ℕ) (ks : List ℕ) (xs : List A) → AreParts number ks → SameBag (flat_map (λ k. part number k xs) ks) xs }
    ensures each { (f : A → List B) (g : ℕ → A → List B) (number : A → ℕ) (ks : List ℕ) (xs : List A) → AreParts number ks
        → ((k : ℕ) (x : A) → number x ≡ k → g k x ≡ f x) → SameBag (flat_map (λ k. flat_map (g k) (part number k xs)) ks) (flat_map f xs) }
{}

/// Where items can be compared, lists that are the same bag are each other in another order, and no others are.
pub fn same_bags_are_rearranged<A>()
    ensures { (equals : A → A → Bool) (xs ys : List A) → ((a b : A) → Decides (equals a b) (a ≡ b)) → SameBag xs ys ↔ IsRearranged xs ys }
{}

/// A fold whose steps commute gives the same over a list in another order.
pub fn folds_ignore_order<A, B>()
    ensures { (f : B → A → B) (start : B) (xs ys : List A) → ((b : B) (x y : A) → f (f b x) y ≡ f (f b y) x) → IsRearranged xs ys → fold f start xs ≡ fold f start ys }
{}

/// The rows of a list, each once: each row of the list stands there once, and no other. Lists that are the same bag have
/// the same, and a test takes of them what it takes of the list.
pub fn each_row_stands_once()
    ensures once { (row : List Value) (rows : List (List Value)) → count_by (row_eq row) (firsts rows) ≡ min 1 (count_by (row_eq row) rows) }
    ensures same { (xs ys : List (List Value)) → SameBag xs ys → SameBag (firsts xs) (firsts ys) }
    ensures filter { (p : List Value → Bool) (rows : List (List Value)) → firsts (filter p rows) ≡ filter p (firsts rows) }
{}
