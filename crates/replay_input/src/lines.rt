// The lines of the input, a name and numbers each.
ghost use Rattle.std.specs.Prelude.{◌-◌, ◌≤◌};

use crate::names::Name;
use crate::reader::Reader;
use replay_output::front;

// A line's name, and its numbers without those of its lists.
#[derive(Clone, Copy, PartialEq, Eq, Debug)]
pub struct Line {
    pub name: Name,
    pub first: usize,
    pub second: usize,
    pub third: usize,
}

// The node count, and how many ends, presets and bytes of a file there are.
#[derive(Clone, Copy, PartialEq, Eq, Debug, Default)]
pub struct Sizes {
    pub nodes: usize,
    pub ends: usize,
    pub presets: usize,
    pub file: usize,
}

impl Sizes {
    fn after(self, line: Line) -> Self {
        match line.name {
            Name::Graph => Sizes {
                nodes: line.first,
                ends: line.second,
                ..self
            },
            Name::Presets => Sizes {
                presets: line.first,
                ..self
            },
            Name::File => Sizes {
                file: line.first,
                ..self
            },
            _ => self,
        }
    }
}

// What the last graph, presets and file lines said, and the slices that they are read into.
#[derive(Drop)]
pub struct Given<'a> {
    pub sizes: Sizes,
    pub ends: &'a mut [u16],
    pub presets: &'a mut [u16],
    pub file: &'a mut [u8],
}

impl Given<'_> {
    pub fn case(&self) -> Case<'_> {
        Case {
            nodes: self.sizes.nodes,
            ends: front(self.ends, self.sizes.ends),
            presets: front(self.presets, self.sizes.presets),
            file: front(self.file, self.sizes.file),
        }
    }
}

// The same for a call.
#[derive(Clone, Copy)]
pub struct Case<'a> {
    pub nodes: usize,
    pub ends: &'a [u16],
    pub presets: &'a [u16],
    pub file: &'a [u8],
}

// The slices that a call is lent parts of. Lists of a line's own are read into the first two.
#[derive(Drop)]
pub struct Lent<'a> {
    pub list: &'a mut [u16],
    pub entries: &'a mut [u16],
    pub bytes: &'a mut [u8],
}

impl<'a, I: Input> Reader<'a, I> {
    // A line's first word.
    fn read_name(&mut self) -> Name
        ensures { self.new.left ≤ self.old.left }
    {
        let mut word = [0; 64];
        let length = self.read_word(&mut word);
        Name::from(&word[..length])
    }

    // A line's name and its numbers:
    // graph N L e1 .. eL
    // presets L p1 .. pL
    // file L b1 .. bL
    // edges_at V S s1 .. sS E e1 .. eE, and fewer_days M F f1 .. fF S s1 .. sS
    // and a call's name with at most three numbers; a name that is unknown reads the same.
    pub fn read_line(&mut self, given: &mut Given, lent: &mut Lent) -> Line
        ensures { self.new.left ≤ self.old.left - 1 }
    {
        let name = self.read_name();
        let (first, second, third) = match name {
            Name::Graph => (self.read_number(), self.read_list(given.ends), 0),
            Name::Presets => (self.read_list(given.presets), 0, 0),
            Name::File => (self.read_list(given.file), 0, 0),
            Name::EdgesAt | Name::FewerDays => (
                self.read_number(),
                self.read_list(lent.list),
                self.read_list(lent.entries),
            ),
            _ => (self.read_number(), self.read_number(), self.read_number()),
        };
        self.skip_line();
        let line = Line {
            name,
            first,
            second,
            third,
        };
        given.sizes = given.sizes.after(line);
        line
    }
}
