// The rooms that a call is lent: full of one byte, but that they begin with what an earlier call left, cut to their size.
ghost use Rattle.std.specs.Prelude.{◌≤◌, ◌≡◌, length, Decides};
ghost use Rattle.lines.specs.Lent.{taken_of};
ghost use Rattle.lines.specs.declared.rooms.TheConstants.{LARGEST_ROOM};

// The bytes of the largest room. Each room is the start of an array of that size, since there is to be no heap.
pub const LARGEST_ROOM: usize = 65536;

// The bytes of a place and of a pair.
const PLACE: usize = 8;

// How a room is lent: its size, the byte that fills it, and what an earlier call left at its start.
#[derive(Clone, Copy)]
pub struct Lent<'a> {
    pub size: usize,
    pub fill: u8,
    pub was: &'a [u8],
    pub ghost no_larger: { size ≤ LARGEST_ROOM },
}

impl<'a> Lent<'a> {
    ghost use Rattle.lines.specs.Lent.{lent_byte, IsAsLent};

    // The room, laid at the start of a space for it.
    pub fn lay<'r>(&self, space: &'r mut [u8; LARGEST_ROOM]) -> &'r mut [u8]
        ensures size { length result.now ≡ self.now.size }
        ensures bytes { IsAsLent result.now 0 self.now.fill self.now.was.now }
    {
        let room = &mut space[..self.size];
        self.lay_in(room);
        room
    }

    // The same bytes, laid in the whole of a room of any size.
    pub fn lay_in(&self, room: &mut [u8])
        ensures size { length room.new ≡ length room.old }
        ensures bytes { IsAsLent room.new 0 self.now.fill self.now.was.now }
    {
        let kept = self.was.len().min(room.len());
        room.fill(self.fill);
        room[..kept].copy_from_slice(&self.was[..kept]);
    }

    // Whether every byte of the room from a place on is as it was lent.
    pub fn is_left(&self, room: &[u8], from: usize) -> bool
        ensures { Decides result (IsAsLent room.now from self.now.fill self.now.was.now) }
    {
        for (place, byte) in room.iter().enumerate() {
            if from <= place && *byte != self.byte_at(place) {
                return false;
            }
        }
        true
    }

    // The byte that a room is lent with at a place.
    fn byte_at(&self, place: usize) -> u8
        ensures { result ≡ lent_byte self.now.fill self.now.was.now place }
    {
        self.was.get(place).copied().unwrap_or(self.fill)
    }
}

// The bytes of a room that a number of places or pairs takes, or all that it has.
pub fn taken(room: &[u8], count: usize) -> usize
    ensures { result ≡ taken_of room.now count }
{
    count.saturating_mul(PLACE).min(room.len())
}
