//! What the words of ssh-add say so far, and how the next one, from the left, adds to it.

ghost use Rattle.std.specs.Prelude.{◌≡◌, ◌⊎◌, IfOk, MatchResult, None, Some, [], false, IsTrue};
ghost use Rattle.add_words.specs.declared.command.WordsFault.TheVariants.{Memory};
ghost use Rattle.add_words.specs.Given.{given_of, nothing_given, after_option, after_value, after_word};
ghost use Rattle.add_words.specs.Words.{words_of_given, plain_words};

use crate::command::{AddWords, Command, WordsFault};
use crate::count::read_count;
use crate::option::{Wanted, Word, option_of};
use std::alloc::Global;
use world_ports::read_life;

/// What the words so far say.
#[derive(Drop)]
pub struct Given<'a> {
    pub command: Option<Command>,
    pub confirm: bool,
    pub life: Option<u32>,
    pub uses: Option<u32>,
    pub destinations: Vec<&'a str>,
    pub hosts: Vec<&'a str>,
    pub purposes: Vec<&'a str>,
    pub files: Vec<&'a str>,
    /// The value that the next word is.
    pub wanted: Option<Wanted>,
    /// All words from here on are files.
    pub ended: bool,
}

impl<'a> Given<'a> {
    pub fn new(alloc: Global) -> Given<'a>
        ensures { given_of result ≡ nothing_given }
    {
        Given {
            command: None,
            confirm: false,
            life: None,
            uses: None,
            destinations: Vec::new(alloc),
            hosts: Vec::new(alloc),
            purposes: Vec::new(alloc),
            files: Vec::new(alloc),
            wanted: None,
            ended: false,
        }
    }

    /// Takes the next word. After a fault the words so far are only dropped.
    pub fn take(&mut self, word: &'a str) -> Result<(), WordsFault>
        ensures { MatchResult result
            (λ _. after_word (given_of self.old) word.entry.now ≡ Some (given_of self.new))
            (λ fault. (fault ≡ Memory) ⊎ (after_word (given_of self.old) word.entry.now ≡ None)) }
    {
        match self.wanted {
            Some(wanted) => self.take_value(wanted, word),
            None if self.ended => Ok(self.files.push(word)?),
            None => self.take_option(word),
        }
    }

    fn take_value(&mut self, wanted: Wanted, word: &'a str) -> Result<(), WordsFault>
        ensures { MatchResult result
            (λ _. after_value wanted (given_of self.old) word.entry.now ≡ Some (given_of self.new))
            (λ fault. (fault ≡ Memory)
            ⊎ (after_value wanted (given_of self.old) word.entry.now ≡ None)) }
    {
        self.wanted = None;
        match wanted {
            Wanted::Life => match read_life(word.as_bytes()) {
                Some(life) => self.life = Some(life),
                None => return Err(WordsFault::Usage),
            },
            Wanted::Uses => match read_count(word) {
                Some(uses) => self.uses = Some(uses),
                None => return Err(WordsFault::Usage),
            },
            Wanted::Destination => self.destinations.push(word)?,
            Wanted::Hosts => self.hosts.push(word)?,
            Wanted::Purpose => self.purposes.push(word)?,
        }
        Ok(())
    }

    fn take_option(&mut self, word: &'a str) -> Result<(), WordsFault>
        ensures { MatchResult result
            (λ _. after_option (given_of self.old) word.entry.now ≡ Some (given_of self.new))
            (λ fault. (fault ≡ Memory) ⊎ (after_option (given_of self.old) word.entry.now ≡ None)) }
    {
        match option_of(word) {
            Word::Does(command) if self.command.is_none() => self.command = Some(command),
            Word::Confirm if !self.confirm => self.confirm = true,
            Word::Wants(Wanted::Life) if self.life.is_some() => return Err(WordsFault::Usage),
            Word::Wants(Wanted::Uses) if self.uses.is_some() => return Err(WordsFault::Usage),
            Word::Wants(wanted) => self.wanted = Some(wanted),
            Word::Ends => self.ended = true,
            Word::File => self.files.push(word)?,
            Word::Does(_) | Word::Confirm | Word::Unknown => return Err(WordsFault::Usage),
        }
        Ok(())
    }
}
