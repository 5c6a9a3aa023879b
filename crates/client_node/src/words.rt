//! What the words of the command line name.
use rows::{ClassName, Name, NodeId, NodeSpec, Quantity, Size, Space};
use timers::ClientSettings;

/// A node, by its number, class, processor time, memory and disk.
pub fn node_of(number: &str, class: &str, cpu: &str, mem: &str, disk: &str) -> Option<NodeSpec> {
    let class: ClassName = Name::read(class).ok()?;
    Some(NodeSpec {
        number: NodeId::from_number(number.parse().ok()?)?,
        class,
        size: Size {
            cpu: Quantity::new(cpu.parse().ok()?)?,
            mem: Quantity::new(mem.parse().ok()?)?,
            disk: Space::new(disk.parse().ok()?)?,
        },
    })
}

/// The settings with one that a word names, as `ping=100`; none where it names none.
fn with_setting(settings: ClientSettings, word: &str) -> Option<ClientSettings> {
    let (name, number) = word.split_once('=')?;
    let ms: u32 = number.parse().ok()?;
    let mut settings = settings;
    match name {
        "register" => settings.register = ms,
        "ping" => settings.ping = ms,
        "pull" => settings.pull = ms,
        _ => return None,
    }
    Some(settings)
}

/// The settings with those that the words name; none where a word names none.
pub fn settings_of(settings: ClientSettings, words: &[String]) -> Option<ClientSettings> {
    let mut settings = settings;
    for word in words {
        settings = with_setting(settings, word.as_str())?;
    }
    Some(settings)
}
