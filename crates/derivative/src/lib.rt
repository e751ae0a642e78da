// The derivative over a store's places, by recursion on the place: a child stands lower than its parent.
// The definitions that the contracts cite stand in specs/; specs/Lib.antt lists them. Nothing of this is offered to others.
#![tactic(auto)]

ghost use Rattle.std.specs.Prelude.{◌≡◌, cond, ℕ, ◌<◌, ◌≤◌, IfOk};
ghost use Rattle.records.specs.Kind.{choice_kind};
ghost use Rattle.store.specs.Work.{store_of, space_of};
ghost use Rattle.derivative.specs.Derivative.{price, of_making, making, after_product, derive_to};
ghost use Rattle.derivative.specs.Parts.{asked, product_of, with_left, derive_parts};
ghost use Rattle.derivative.specs.Told.{Comes};

use cards::examine::as_mark;
use records::kind::Kind;
use records::record::Record;
use refusals::refusal::Refusal;
use runs::item::Item;
use store::room::NOTHING_PLACE;
use store::work::Work;

pub mod both;

// What a visit costs.
const PRICE: u32 = 1;

// What a visited record asks for. Either it is derived at once, to a place. Or its left part is derived; of its right part then two things are
// said: whether the product of the derived left part with it is made, and whether it is derived too and the choice of both made.
#[derive(Clone, Copy)]
pub enum Visited {
    Leaf(usize),
    Parts(usize, usize, bool, bool),
}

// The derivative of a place by a letter.
#[cycle(deriving)]
pub fn derive(work: &mut Work<'_>, place: usize, letter: u8) -> Result<usize, Refusal>
    requires { place < work.old.places }
    ensures same_room { work.new.room.ghost_name ≡ work.old.room.ghost_name }
    ensures comes { (depth : ℕ) → place < depth → Comes work.old (derive_to depth (space_of work.old) letter place (store_of work.old) work.old.budget) result work.new }
    ensures inside { IfOk result (λ next. next < work.new.places) }
    ensures grows { work.old.places ≤ work.new.places }
{
    let fee = price(place);
    if work.budget < fee {
        return Err(Refusal::NoBudgetLeft);
    }
    work.budget -= fee;
    match visit(work, place, letter) {
        Visited::Leaf(next) => Ok(next),
        Visited::Parts(left, right, product, both) => {
            derive_parts(work, left, right, product, both, letter)
        }
    }
}

// The price of a visit to a place.
fn price(place: usize) -> u32
    ensures { result ≡ price place }
{
    PRICE
}

// Reads the record at a place, and tells what it asks for: a choice both parts and no product, a sequence the product, and the right part only if
// the left one's mark is 1, a repeat the product with itself.
fn visit(work: &Work<'_>, place: usize, letter: u8) -> Visited
    requires { place < work.now.places }
    ensures { result ≡ asked (store_of work.now) letter place }
{
    let r = Record::read(work.room, place);
    match Kind::from(r.kind) {
        Kind::Nothing => Visited::Leaf(NOTHING_PLACE),
        Kind::EmptyWord => Visited::Leaf(NOTHING_PLACE),
        Kind::Letter => Visited::Leaf(as_mark(r.letter == letter) as usize),
        Kind::Choice => Visited::Parts(r.left as usize, r.right as usize, false, true),
        Kind::Sequence => Visited::Parts(
            r.left as usize,
            r.right as usize,
            true,
            work.marked(r.left as usize),
        ),
        Kind::Repeat => Visited::Parts(r.left as usize, place, true, false),
        Kind::Unknown => Visited::Leaf(NOTHING_PLACE),
    }
}

// Derives the left part, and goes on. What was asked for is passed on one by one, so that a level of the calls takes little of the stack.
#[cycle(deriving)]
fn derive_parts(
    work: &mut Work<'_>,
    left: usize,
    right: usize,
    product: bool,
    both: bool,
    letter: u8,
) -> Result<usize, Refusal>
    requires { (left < work.old.places) × (right < work.old.places) }
    ensures same_room { work.new.room.ghost_name ≡ work.old.room.ghost_name }
    ensures comes { (depth : ℕ) → left < depth → cond both right 0 < depth → Comes work.old (derive_parts (λ p s b. derive_to depth (space_of work.old) letter p s b) (space_of work.old) left right product both (store_of work.old) work.old.budget) result work.new }
{
    let x = derive(work, left, letter)?;
    with_left(work, x, right, product, both, letter)
}

// The left part came to x: makes the product where it is asked for, and goes on. It has the shape of `derive_parts`, with another call before it and another
// definition.
#[cycle(deriving)]
fn with_left(
    work: &mut Work<'_>,
    x: usize,
    right: usize,
    product: bool,
    both: bool,
    letter: u8,
) -> Result<usize, Refusal>
    requires { (x < work.old.places) × (right < work.old.places) }
    ensures same_room { work.new.room.ghost_name ≡ work.old.room.ghost_name }
    ensures comes { (depth : ℕ) → cond both right 0 < depth → Comes work.old (with_left (λ p s b. derive_to depth (space_of work.old) letter p s b) (space_of work.old) x right product both (store_of work.old) work.old.budget) result work.new }
{
    let y = product_of(work, x, right, product)?;
    with_right(work, y, right, both, letter)
}

// The product of x with the right part where it is asked for, and else x.
fn product_of(work: &mut Work<'_>, x: usize, right: usize, product: bool) -> Result<usize, Refusal>
    requires { (x < work.old.places) × (right < work.old.places) }
    ensures same_room { work.new.room.ghost_name ≡ work.old.room.ghost_name }
    ensures comes { Comes work.old (of_making (product_of (space_of work.old) (store_of work.old) x right product) work.old.budget) result work.new }
{
    if product {
        work.make(Kind::Sequence, 0, x, right)
    } else {
        Ok(x)
    }
}

// It is x so far: where the right part is asked for, derives it and makes the choice of x and that.
#[cycle(deriving)]
fn with_right(
    work: &mut Work<'_>,
    x: usize,
    right: usize,
    both: bool,
    letter: u8,
) -> Result<usize, Refusal>
    requires { (x < work.old.places) × (right < work.old.places) }
    ensures same_room { work.new.room.ghost_name ≡ work.old.room.ghost_name }
    ensures comes { (depth : ℕ) → cond both right 0 < depth → Comes work.old (after_product (λ p s b. derive_to depth (space_of work.old) letter p s b) (space_of work.old) right both x (store_of work.old) work.old.budget) result work.new }
{
    if !both {
        return Ok(x);
    }
    let y = derive(work, right, letter)?;
    choice_of(work, x, y)
}

// The choice of x and y. It stays a call of its own, so that what making takes of the stack is taken once and not a level.
#[inline(never)]
fn choice_of(work: &mut Work<'_>, x: usize, y: usize) -> Result<usize, Refusal>
    requires { (x < work.old.places) × (y < work.old.places) }
    ensures same_room { work.new.room.ghost_name ≡ work.old.room.ghost_name }
    ensures comes { Comes work.old (making (space_of work.old) choice_kind x y (store_of work.old) work.old.budget) result work.new }
{
    work.make(Kind::Choice, 0, x, y)
}
