ghost use Rattle.std.specs.Prelude.{Bool, List, Option};
ghost use Rattle.outside.specs.Contents.{WhereTold};
ghost use Rattle.watched_disk.specs.Look.{Looks};

/// What looks whether a file is where it was.
pub trait Watch: Drop {
    /// The answers of all looks, the last one first, where it tells them.
    ghost looks: { Self → Option (List Bool) };

    /// Whether the file is there now.
    fn is_there(&mut self) -> bool
        ensures { WhereTold (Looks result) (looks self.old) (looks self.new) };
}
