// What is true of all words.
ghost use Rattle.std.specs.Prelude.{◌≡◌, ℕ, List, Some};
ghost use Rattle.job_words.specs.Account.{account, AreUtf8};
ghost use Rattle.job_words.specs.Words.{PlainJob, InForm};

/// Words say one job or none, however they are taken apart.
pub fn no_words_say_two_jobs()
    ensures { (words : List (List ℕ)) (job other : PlainJob) → InForm words job → InForm words other → job ≡ other }
{}

/// The job by the account of the parser of command lines is the job that the words say by how they are written.
pub fn accounts_are_as_written()
    ensures sound { (words : List (List ℕ)) (job : PlainJob) → AreUtf8 words → account words ≡ Some job → InForm words job }
    ensures complete { (words : List (List ℕ)) (job : PlainJob) → AreUtf8 words → InForm words job → account words ≡ Some job }
{}
