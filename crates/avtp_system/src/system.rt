//! The system that a program runs on.

ghost use Rattle.std.specs.Prelude.{◌≡◌, IfErr, IfOk, IfSome, IsSome};
ghost use Rattle.option_words.specs.Word.{texts};

use avtp_base::NoMemory;
use run_report::Status;

/// The system that a program runs on: its arguments, and the files that its devices write.
pub trait System<S> {
    ghost use Rattle.std.specs.Prelude.{ℕ, List, Option};

    /// The arguments after the program's name, if the system shows them.
    ghost told: { Self → Option (List (List ℕ)) };

    /// The path of a file, if the system shows its arguments.
    ghost path: { Self → S → List ℕ };

    /// The paths of the files that a file must differ from, if the system shows its arguments.
    ghost others: { Self → S → List (List ℕ) };

    /// The arguments after the program's name.
    ///
    /// A system that shows its arguments fails only if memory runs out. Any other system returns `Words` if an argument is not
    /// text.
    fn words(&self) -> Result<Vec<String>, Status>
        ensures said { IfOk result (λ words. IfSome (told self.now) (λ said. texts words.items ≡ said)) }
        ensures fault { IfErr result (λ status. IsSome (told self.now) → status ≡ Status.Memory) };

    /// The file with the path `name`. The file must differ from the files with the paths `apart`. The file is created
    /// when it is first written to.
    fn file(&self, name: &str, apart: Vec<String>) -> Result<S, NoMemory>
        ensures named { IsSome (told self.now) → IfOk result (λ file. path self.now file ≡ name.now) }
        ensures apart { IsSome (told self.now) → IfOk result (λ file. others self.now file ≡ texts apart.items) };
}
