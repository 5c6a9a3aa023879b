//! How texts and lines look. Each differs from the others by more than its colour, so that a print
//! in black and white can be read.
ghost use Rattle.std.specs.Prelude.{◌≡◌};
ghost use Rattle.sim_draw.specs.Inner.Shapes.{ink_look, most_of, stroke_look, spot_look, anchor_look, cover_look};
ghost use Rattle.sim_draw.specs.Inner.Drawn.{ink_width, ink_height, life, way};

/// The most characters of a label that are drawn.
pub(crate) const MOST: usize = 24;

/// What a text is.
#[derive(Clone, Copy)]
pub(crate) enum Ink {
    /// The counts, above the picture.
    Title,
    /// What the signs mean, below the counts.
    Legend,
    /// The name of a lifeline.
    Name,
    /// The number of an event, or of a message.
    Number,
    /// An actor's own input.
    Input,
    /// A message that came.
    Message,
    /// A message that never came.
    Lost,
    /// An event that was refused.
    Refused,
    /// What an event changed.
    Note,
}

impl Ink {
    /// The attributes of the text.
    pub(crate) fn attributes(self) -> &'static str
        ensures { result.now ≡ ink_look self }
    {
        match self {
            Ink::Title => "font-size=\"15\" font-weight=\"bold\" fill=\"#000000\"",
            Ink::Legend => "font-size=\"10\" fill=\"#444444\"",
            Ink::Name => "font-size=\"13\" font-weight=\"bold\" fill=\"#000000\"",
            Ink::Number => "font-size=\"9\" fill=\"#666666\"",
            Ink::Input => "font-size=\"11\" font-weight=\"bold\" fill=\"#000000\"",
            Ink::Message => "font-size=\"11\" fill=\"#123f6b\"",
            Ink::Lost => "font-size=\"9\" font-style=\"italic\" fill=\"#8a1f11\"",
            Ink::Refused => "font-size=\"11\" font-style=\"italic\" fill=\"#777777\"",
            Ink::Note => "font-size=\"11\" font-weight=\"bold\" fill=\"#17602f\"",
        }
    }

    /// The most characters of the text that are drawn.
    pub(crate) fn most(self) -> usize
        ensures { result ≡ most_of self }
    {
        match self {
            Ink::Title | Ink::Legend => usize::MAX,
            _ => MOST,
        }
    }

    /// About the width of a character, in tenths of a pixel.
    pub(crate) fn width(self) -> u64
        ensures { result ≡ ink_width self }
    {
        match self {
            Ink::Title => 85,
            Ink::Name => 80,
            Ink::Legend | Ink::Number | Ink::Lost => 50,
            Ink::Message | Ink::Refused => 58,
            Ink::Input => 64,
            Ink::Note => 72,
        }
    }

    /// About the height of a text above its base line, in pixels.
    pub(crate) fn height(self) -> u64
        ensures { result ≡ ink_height self }
    {
        match self {
            Ink::Title => 13,
            Ink::Name => 11,
            Ink::Legend | Ink::Number | Ink::Lost => 8,
            Ink::Message | Ink::Refused | Ink::Input | Ink::Note => 9,
        }
    }
}

/// What a line is.
#[derive(Clone, Copy)]
pub(crate) enum Stroke {
    /// The life of an actor that is up.
    Life,
    /// The life of a server that leads.
    Leads,
    /// The way of a message that came.
    Came,
    /// The way of a message that had come before.
    Again,
    /// The way of a message that never came.
    Lost,
    /// One of the two lines of a cross where an actor stops.
    Crash,
    /// That a server applied entries.
    Commit,
}

impl Stroke {
    /// The life of an actor that is up: whether it leads.
    pub(crate) fn of_life(leads: bool) -> Stroke
        ensures { result ≡ life leads }
    {
        if leads { Stroke::Leads } else { Stroke::Life }
    }

    /// The way of a message that came: whether it had come before.
    pub(crate) fn of_way(again: bool) -> Stroke
        ensures { result ≡ way again }
    {
        if again { Stroke::Again } else { Stroke::Came }
    }

    /// The attributes of the line.
    pub(crate) fn attributes(self) -> &'static str
        ensures { result.now ≡ stroke_look self }
    {
        match self {
            Stroke::Life => "stroke=\"#777777\" stroke-width=\"1\"",
            Stroke::Leads => "stroke=\"#d08a1d\" stroke-width=\"7\"",
            Stroke::Came => "stroke=\"#1f4e79\" stroke-width=\"1.2\" marker-end=\"url(#head)\"",
            Stroke::Again => {
                "stroke=\"#1f4e79\" stroke-width=\"1.2\" stroke-dasharray=\"5,4\" \
                 marker-end=\"url(#head)\""
            }
            Stroke::Lost => "stroke=\"#8a1f11\" stroke-width=\"1\"",
            Stroke::Crash => "stroke=\"#000000\" stroke-width=\"2.5\"",
            Stroke::Commit => "stroke=\"#17602f\" stroke-width=\"3\"",
        }
    }
}

/// What a circle on a lifeline is.
#[derive(Clone, Copy)]
pub(crate) enum Spot {
    /// An event.
    Event,
    /// An event that was refused.
    Refused,
    /// An actor begins again.
    Begins,
}

impl Spot {
    /// The radius and the attributes of the circle.
    pub(crate) fn attributes(self) -> &'static str
        ensures { result.now ≡ spot_look self }
    {
        match self {
            Spot::Event => "r=\"3\" fill=\"#000000\"",
            Spot::Refused => "r=\"2\" fill=\"#ffffff\" stroke=\"#777777\"",
            Spot::Begins => "r=\"5\" fill=\"#ffffff\" stroke=\"#000000\" stroke-width=\"2\"",
        }
    }
}

/// Which part of a text stands at its point.
#[derive(Clone, Copy)]
pub(crate) enum Anchor {
    /// Its left end.
    Start,
    /// Its middle.
    Middle,
    /// Its right end.
    End,
}

impl Anchor {
    /// The attribute of the text.
    pub(crate) fn attributes(self) -> &'static str
        ensures { result.now ≡ anchor_look self }
    {
        match self {
            Anchor::Start => "text-anchor=\"start\"",
            Anchor::Middle => "text-anchor=\"middle\"",
            Anchor::End => "text-anchor=\"end\"",
        }
    }
}

/// What a white rectangle below a text is.
#[derive(Clone, Copy)]
pub(crate) enum Cover {
    /// Nothing is seen through it.
    Whole,
    /// A line can still be seen through it.
    Thin,
}

impl Cover {
    /// The attributes of the rectangle.
    pub(crate) fn attributes(self) -> &'static str
        ensures { result.now ≡ cover_look self }
    {
        match self {
            Cover::Whole => "fill=\"#ffffff\"",
            Cover::Thin => "fill=\"#ffffff\" fill-opacity=\"0.8\"",
        }
    }
}
