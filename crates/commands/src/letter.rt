// The letter that a command line begins with.
ghost use Rattle.std.specs.Prelude.{◌≡◌};
ghost use Rattle.commands.specs.Letters.{begins_with, letter_in};

// What the text of a command is that has one text.
#[derive(Clone, Copy, Debug, PartialEq, Eq)]
pub enum Handed {
    // A message.
    Message,
    // An old register, to be moved to the newer form.
    Newer,
    // A new register, to be moved to the older form.
    Older,
}

// Does the line begin with the letter and a comma?
#[tactic(auto, using(crate::specs::Letters::letters))]
pub fn begins(line: &[u8], letter: u8) -> bool
    ensures { result ≡ begins_with letter line.now }
{
    line.starts_with(&[letter, b','])
}

// What is handed over by a line's command, where it has one text.
pub fn letter_at(line: &[u8]) -> Option<Handed>
    ensures { result ≡ letter_in line.now }
{
    if begins(line, b'M') {
        return Some(Handed::Message);
    }
    if begins(line, b'N') {
        return Some(Handed::Newer);
    }
    if begins(line, b'P') {
        return Some(Handed::Older);
    }
    None
}
