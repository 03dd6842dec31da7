// Where a command works.
ghost use Rattle.std.specs.Prelude.{◌≡◌, ◌<◌, ◌^◌, length, true};
ghost use Rattle.base_model.specs.StanzaName.{is_stanza};

/// Where a command works: the stanza, the data folder, the repository and the folder of the locks.
#[derive(Clone, Copy)]
pub struct Places<'a> {
    pub stanza: &'a str,
    pub data_folder: &'a str,
    pub repository: &'a str,
    pub lock_folder: &'a str,
    ghost form: { is_stanza stanza.now ≡ true },
    // Each worker is given both folders, with lengths of 16 bits.
    ghost short: { (length data_folder.now < 2 ^ 16) × (length repository.now < 2 ^ 16) },
}
