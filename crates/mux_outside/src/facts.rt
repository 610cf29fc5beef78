use crate::pairs::Pairs;
use ssh_fields::Text;

/// What is known of the machine and of its user. What is unknown is `None`.
#[derive(Drop)]
pub struct Facts {
    /// The user's home directory.
    pub home: Option<Text>,
    /// The user's name.
    pub local_user: Option<Text>,
    /// The user's number, in decimal digits.
    pub uid: Option<Text>,
    /// The name of this machine.
    pub host_name: Option<Text>,
    /// The environment, of which equal names may stand more than once.
    pub vars: Pairs,
    /// The number that the master gives as its process id.
    pub pid: Option<u32>,
}
