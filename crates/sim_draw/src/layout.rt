//! Where everything stands, in pixels from the upper left corner.
ghost use Rattle.std.specs.Prelude.{◌≡◌, ◌<◌, ◌≤◌, ◌+◌, ◌*◌, IfOk, length, replicate, slice_get};
ghost use Rattle.sim_draw.specs.Inner.Positions.{down_by, up_by, aside_by, side_towards, opposite, distance, pitch, lifeline_x, column_x, row_y, point_at, slot_at, lifeline_top, lifeline_end, picture_width, picture_height, row_height, names_again, names_between};
ghost use Rattle.sim_draw.specs.Inner.Fans.{count_on, depth_of, fan_behind, fans_behind, no_fan, one_more_on, place_among, place_in};
ghost use Rattle.sim_draw.specs.Inner.Layouts.{AreFans, AreSlots, RowsFollow, RowsHold, top_below};

use crate::record::{Record, Sending};
use rows::NoMemory;
use std::alloc::Global;

// Where the first lifeline stands.
const FIRST: u64 = 290;

// How far each lifeline is from the one before it: as far as all find room in, but no farther and no
// nearer than this.
const ALL: u64 = 1_600;

const FARTHEST: u64 = 150;

const NEAREST: u64 = 32;

// How much stands right of the last lifeline.
const RIGHT: u64 = 200;

// Where the names of the lifelines stand, and where the first event does.
const HEAD: u64 = 88;

const FIRST_ROW: u64 = 118;

/// How far an event is from the one before it.
pub(crate) const ROW: u64 = 22;

/// How far two lost messages of one event stand from each other.
pub(crate) const SLOT: u64 = 10;

// How many events stand between two lines of names, and how much room such a line takes.
const BAND_EVERY: usize = 40;

const BAND: u64 = 26;

/// A point of the picture.
#[derive(Clone, Copy)]
pub(crate) struct Point {
    /// From the left edge.
    pub x: u64,
    /// From the upper edge.
    pub y: u64,
}

impl Point {
    /// The point that lies so much farther down.
    pub(crate) fn down(self, by: u64) -> Point
        ensures { result ≡ down_by self by }
    {
        Point {
            x: self.x,
            y: self.y.saturating_add(by),
        }
    }

    /// The point that lies so much farther up.
    pub(crate) fn up(self, by: u64) -> Point
        ensures { result ≡ up_by self by }
    {
        Point {
            x: self.x,
            y: self.y.saturating_sub(by),
        }
    }

    /// The point that lies so much farther to a side.
    pub(crate) fn aside(self, side: Side, by: u64) -> Point
        ensures { result ≡ aside_by self side by }
    {
        let x = match side {
            Side::Left => self.x.saturating_sub(by),
            Side::Right => self.x.saturating_add(by),
        };
        Point { x, y: self.y }
    }
}

/// A side of a lifeline.
#[derive(Clone, Copy)]
pub(crate) enum Side {
    /// Towards the first lifeline.
    Left,
    /// Towards the last one.
    Right,
}

impl Side {
    /// The side of one lifeline on which another stands; of its own, the right one.
    pub(crate) fn towards(from: usize, to: usize) -> Side
        ensures { result ≡ side_towards from to }
    {
        if to < from { Side::Left } else { Side::Right }
    }

    /// The other side.
    pub(crate) fn other(self) -> Side
        ensures { result ≡ opposite self }
    {
        match self {
            Side::Left => Side::Right,
            Side::Right => Side::Left,
        }
    }
}

/// How far each of so many lifelines stands from the one before it.
fn pitch_of(columns: usize) -> u64
    ensures value { result ≡ pitch columns }
    ensures nearest { 32 ≤ result }
    ensures farthest { result ≤ 150 }
{
    let each = ALL / (columns as u64).max(1);
    each.min(FARTHEST).max(NEAREST)
}

/// Where a lifeline stands, from the left edge; of the 69 that there may be, each right of the one
/// before it.
fn x_of(pitch: u64, column: usize) -> u64
    ensures value { result ≡ lifeline_x pitch column }
    ensures apart { pitch ≤ 150 → column < 69 → result ≡ pitch * column + 290 }
{
    pitch.saturating_mul(column as u64).saturating_add(FIRST)
}

/// How far two numbers are apart.
pub(crate) fn distance(one: u64, other: u64) -> u64
    ensures { result ≡ distance one other }
{
    one.max(other) - one.min(other)
}

/// Whether the names of the lifelines stand once more above an event.
pub(crate) fn has_band(row: usize) -> bool
    ensures { result ≡ names_again row }
{
    row > 0 && row % BAND_EVERY == 0
}

/// Whether the names of the lifelines stand once more between two events.
pub(crate) fn is_parted(from: usize, to: usize) -> bool
    ensures { result ≡ names_between from to }
{
    from / BAND_EVERY < to / BAND_EVERY
}

// How many messages one event lost, on each side of its actor.
#[derive(Clone, Copy)]
struct Fan {
    left: u64,
    right: u64,
}

impl Fan {
    // None of them, so far.
    const NONE: Fan = Fan { left: 0, right: 0 };

    // How many there are on a side.
    fn count(self, side: Side) -> u64
        ensures { result ≡ count_on side self }
    {
        match side {
            Side::Left => self.left,
            Side::Right => self.right,
        }
    }

    // One more on a side.
    fn more(self, side: Side) -> Fan
        ensures { result ≡ one_more_on side self }
    {
        match side {
            Side::Left => Fan {
                left: self.left.saturating_add(1),
                right: self.right,
            },
            Side::Right => Fan {
                left: self.left,
                right: self.right.saturating_add(1),
            },
        }
    }

    // How many stand below each other, less one.
    fn depth(self) -> u64
        ensures { result ≡ depth_of self }
    {
        self.left.max(self.right).saturating_sub(1)
    }

    // Which of those on its side a message is, from 0; one that came is none of them.
    fn place(&mut self, sending: &Sending) -> u64
        ensures place { result ≡ place_in self.old sending.now }
        ensures fan { self.new ≡ fan_behind self.old sending.now }
    {
        if sending.came {
            return 0;
        }
        let fan = *self;
        let side = Side::towards(sending.from, sending.to);
        *self = fan.more(side);
        fan.count(side)
    }
}

/// Where the events and the lost messages of a run stand. It takes memory in proportion to them.
#[derive(Drop)]
pub(crate) struct Layout {
    // How far down each event stands.
    tops: Vec<u64>,
    // Which of its event's lost messages on its side each message is.
    slots: Vec<u64>,
    // Where the lifelines end.
    bottom: u64,
    // How many lifelines are drawn, and which of these each is; none is that of a client that did
    // nothing.
    shown: usize,
    places: Vec<Option<usize>>,
    // How far each lifeline is from the one before it.
    pitch: u64,
}

impl Layout {
    /// The layout of what is noted. Lifelines are as far apart as it is chosen for those that are
    /// drawn.
    pub(crate) fn new(alloc: Global, drawn: &Record) -> Result<Layout, NoMemory>
        ensures pitch { IfOk result (λ layout. layout.pitch ≡ pitch layout.shown) }
        ensures rows { IfOk result (λ layout. RowsHold drawn.now layout) }
        ensures slots { IfOk result (λ layout. AreSlots (length drawn.now.steps.items)
            drawn.now.sendings.items layout.slots.items) }
    {
        let (slots, fans) = slots_of(alloc, drawn.steps.len(), &drawn.sendings)?;
        let (tops, end) = tops_of(alloc, &fans)?;
        let acted = acted_in(alloc, drawn)?;
        let (places, shown) = positions_of(alloc, &acted)?;
        Ok(Layout {
            tops,
            slots,
            // A row has room below the names also where there is no event.
            bottom: end.max(FIRST_ROW + ROW),
            shown,
            places,
            pitch: pitch_of(shown),
        })
    }

    /// Whether a lifeline is drawn: a server's, or that of a client that did anything.
    pub(crate) fn is_shown(&self, column: usize) -> bool {
        matches!(self.places.get(column), Some(Some(_)))
    }

    // Where a lifeline stands, from the left edge.
    fn x_at(&self, column: usize) -> u64
        ensures { result ≡ column_x self.now column }
    {
        let place = self.places.get(column).copied().flatten();
        x_of(self.pitch, place.unwrap_or(column))
    }

    /// How far down an event stands.
    pub(crate) fn y_of(&self, row: usize) -> u64
        ensures { result ≡ row_y self.now row }
    {
        self.tops.get(row).copied().unwrap_or(self.bottom)
    }

    /// The place of an event on a lifeline.
    pub(crate) fn at(&self, column: usize, row: usize) -> Point
        ensures { result ≡ point_at self.now column row }
    {
        Point {
            x: self.x_at(column),
            y: self.y_of(row),
        }
    }

    /// Which of its event's lost messages on its side a message is, from 0.
    pub(crate) fn slot_of(&self, message: usize) -> u64
        ensures { result ≡ slot_at self.now message }
    {
        self.slots.get(message).copied().unwrap_or(0)
    }

    /// Where the lifelines begin and where they end.
    pub(crate) fn ends(&self, column: usize) -> (Point, Point)
        ensures { result ≡ (lifeline_top self.now column, lifeline_end self.now column) }
    {
        let x = self.x_at(column);
        let top = Point { x, y: HEAD };
        (top.down(6), Point { x, y: self.bottom })
    }

    /// The place of the name of a lifeline.
    pub(crate) fn name_at(&self, column: usize) -> Point
        ensures { result ≡ record { x = column_x self.now column; y = 88 } }
    {
        Point {
            x: self.x_at(column),
            y: HEAD,
        }
    }

    /// The place of the name of a lifeline above an event.
    pub(crate) fn band_at(&self, column: usize, row: usize) -> Point
        ensures { result ≡ up_by (point_at self.now column row) 22 }
    {
        self.at(column, row).up(ROW)
    }

    /// The width and the height of the picture.
    pub(crate) fn size(&self) -> (u64, u64)
        ensures { result ≡ (picture_width self.now, picture_height self.now) }
    {
        let last = x_of(self.pitch, self.shown.saturating_sub(1));
        (last.saturating_add(RIGHT), self.bottom.saturating_add(ROW))
    }
}

// Of each lifeline whether it is drawn: a server's, or one on which an event stands.
fn acted_in(alloc: Global, drawn: &Record) -> Result<Vec<bool>, NoMemory> {
    let mut acted = Vec::new(alloc);
    for column in 0..drawn.columns() {
        acted.push(column < drawn.servers)?;
    }
    for step in &drawn.steps {
        if let Some(column) = step.column
            && let Some(has_acted) = acted.get_mut(column)
        {
            *has_acted = true;
        }
    }
    Ok(acted)
}

// Which of those that are drawn each lifeline is, and how many these are.
fn positions_of(alloc: Global, acted: &[bool]) -> Result<(Vec<Option<usize>>, usize), NoMemory> {
    let mut shown = 0usize;
    let mut places = Vec::new(alloc);
    for is_shown in acted {
        if *is_shown {
            places.push(Some(shown))?;
            shown = shown.saturating_add(1);
        } else {
            places.push(None)?;
        }
    }
    Ok((places, shown))
}

// Which of its event's lost messages on its side each message is, and how many each of so many events
// lost.
fn slots_of(
    alloc: Global,
    events: usize,
    sendings: &[Sending],
) -> Result<(Vec<u64>, Vec<Fan>), NoMemory>
    ensures slots { IfOk result (λ both. AreSlots events sendings.now both.0.items) }
    ensures fans { IfOk result (λ both. AreFans events sendings.now both.1.items) }
{
    let mut fans = no_fans(alloc, events)?;
    let mut slots = Vec::new(alloc);
    for sending in sendings {
        slots.push(place_among(&mut fans, sending))?;
    }
    Ok((slots, fans))
}

// So many events that lost nothing.
fn no_fans(alloc: Global, events: usize) -> Result<Vec<Fan>, NoMemory>
    ensures { IfOk result (λ fans. fans.items ≡ replicate events no_fan) }
{
    let mut fans = Vec::new(alloc);
    for _ in 0..events {
        fans.push(Fan::NONE)?;
    }
    Ok(fans)
}

// Which of its event's lost messages on its side a message is, which is now one of them.
fn place_among(fans: &mut Vec<Fan>, sending: &Sending) -> u64
    ensures place { result ≡ place_among (slice_get fans.old.items sending.now.row) sending.now }
    ensures fans { fans.new.items
        ≡ fans_behind fans.old.items sending.now (slice_get fans.old.items sending.now.row) }
{
    match fans.get_mut(sending.row) {
        Some(fan) => fan.place(sending),
        None => 0,
    }
}

// How far down each event stands, and where the last row ends.
fn tops_of(alloc: Global, fans: &[Fan]) -> Result<(Vec<u64>, u64), NoMemory>
    ensures { IfOk result (λ rows. RowsFollow fans.now rows.0.items rows.1) }
{
    let mut tops = Vec::new(alloc);
    let mut end = FIRST_ROW;
    for (row, fan) in fans.iter().enumerate() {
        let top = top_below(end, row);
        tops.push(top)?;
        end = top.saturating_add(height_of(fan.depth()));
    }
    Ok((tops, end))
}

// Where an event stands, below where the row before it ends: the names of the lifelines may stand
// between.
fn top_below(end: u64, row: usize) -> u64
    ensures { result ≡ top_below end row }
{
    if has_band(row) {
        end.saturating_add(BAND)
    } else {
        end
    }
}

// How far the next event is from one with so many lost messages below each other, less one.
fn height_of(depth: u64) -> u64
    ensures { result ≡ row_height depth }
{
    depth.saturating_mul(SLOT).saturating_add(ROW)
}
