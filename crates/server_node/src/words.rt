//! The settings that the command line names.
use timers::Settings;

/// The settings with another wait for a leader; none where no wait is named so, or it is too long.
fn with_wait(settings: Settings, name: &str, ms: u32) -> Option<Settings> {
    let ms = u16::try_from(ms).ok()?;
    let mut settings = settings;
    match name {
        "least_wait" => settings.least_wait = ms,
        "more_wait" => settings.more_wait = ms,
        _ => return None,
    }
    Some(settings)
}

/// The settings with another time between the turns of one kind; none where no kind is named so.
fn with_turns(settings: Settings, name: &str, ms: u32) -> Option<Settings> {
    let mut settings = settings;
    match name {
        "beat" => settings.beat = ms,
        "take" => settings.take = ms,
        "plan" => settings.plan = ms,
        "free" => settings.free = ms,
        _ => return None,
    }
    Some(settings)
}

/// The settings with another time of what is seldom due; none where nothing is named so.
fn with_rounds(settings: Settings, name: &str, ms: u32) -> Option<Settings> {
    let mut settings = settings;
    match name {
        "reap" => settings.reap = ms,
        "compact" => settings.compact = ms,
        "look" => settings.look = ms,
        "expire" => settings.expire = ms,
        "lapse" => settings.lapse = ms,
        _ => return None,
    }
    Some(settings)
}

/// The settings with one that a word names, as `beat=100`; none where it names none.
fn with_setting(settings: Settings, word: &str) -> Option<Settings> {
    let (name, number) = word.split_once('=')?;
    let ms: u32 = number.parse().ok()?;
    if let Some(settings) = with_turns(settings, name, ms) {
        return Some(settings);
    }
    if let Some(settings) = with_rounds(settings, name, ms) {
        return Some(settings);
    }
    with_wait(settings, name, ms)
}

/// The settings with those that the words name; none where a word names none.
pub fn settings_of(settings: Settings, words: &[String]) -> Option<Settings> {
    let mut settings = settings;
    for word in words {
        settings = with_setting(settings, word.as_str())?;
    }
    Some(settings)
}
