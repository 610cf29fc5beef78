use conf_rules::{AskedLine, ConfigFrom, MasterCommand, PermitList, Usage};
use ssh_fields::Text;

/// The mode of the program.
#[derive(Clone, Copy, Drop)]
pub enum CommandMode {
    Listing,
    Master,
    /// The client of a running master.
    Client,
}

/// The effect of a word.
#[derive(Drop)]
pub enum WordAct {
    Chooses(CommandMode),
    Reads(ConfigFrom),
    Asks(AskedLine),
    Connects(Text),
    /// An entry of a list, and the word in which it stands.
    Permits {
        list: PermitList,
        word: u64,
        entry: Text,
    },
    /// Whether sessions are permitted.
    Sessions(bool),
    /// The request to a running master.
    Controls(MasterCommand),
    Goes(Text),
    Fails(Usage),
}
