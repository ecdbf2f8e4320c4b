//! Plain words are taken, and ask what they say.
ghost use Rattle.std.specs.Prelude.{◌≡◌, false, ◌≤◌, ◌^◌, ◌-◌, List, ℕ, [], ◌∷◌, length, codes};
ghost use Rattle.std.specs.Str.Parse.{digits_value, without_leading_plus};
ghost use Rattle.bg_cli.specs.declared.job.Job.TheVariants.{Verify, Annotate, Certify, Check, Generate, Bench};
ghost use Rattle.bg_cli.specs.Cli.{Plain, AllPlain, IsBudget, IsWorkers, IsSeed, IsSize, IsTaken, files_in, workers_in, nodes_in, most_rows_in, guess_in, history_in, job_in, cert_in, seed_in, size_in};

/// `verify` and plain words: a report on these files is asked for, and the numbers of nodes, rows and workers are the usual ones; neither
/// guesses nor the history are asked for.
pub fn plain_words_are_taken()
    ensures taken { (own f : List ℕ) (fs : List (List ℕ)) → AllPlain (f ∷ fs) → length (f ∷ fs) ≤ 2 ^ 64 - 1 → IsTaken (own ∷ codes "verify" ∷ f ∷ fs) }
    ensures files { (own f : List ℕ) (fs : List (List ℕ)) → AllPlain (f ∷ fs) → files_in (own ∷ codes "verify" ∷ f ∷ fs) ≡ f ∷ fs }
    ensures nodes { (own f : List ℕ) (fs : List (List ℕ)) → AllPlain (f ∷ fs) → nodes_in (own ∷ codes "verify" ∷ f ∷ fs) ≡ 20000 }
    ensures rows { (own f : List ℕ) (fs : List (List ℕ)) → AllPlain (f ∷ fs) → most_rows_in (own ∷ codes "verify" ∷ f ∷ fs) ≡ 20000 }
    ensures workers { (own f : List ℕ) (fs : List (List ℕ)) → AllPlain (f ∷ fs) → workers_in (own ∷ codes "verify" ∷ f ∷ fs) ≡ 4 }
    ensures guess { (own f : List ℕ) (fs : List (List ℕ)) → AllPlain (f ∷ fs) → guess_in (own ∷ codes "verify" ∷ f ∷ fs) ≡ false }
    ensures history { (own f : List ℕ) (fs : List (List ℕ)) → AllPlain (f ∷ fs) → history_in (own ∷ codes "verify" ∷ f ∷ fs) ≡ false }
    ensures job { (own f : List ℕ) (fs : List (List ℕ)) → AllPlain (f ∷ fs) → job_in (own ∷ codes "verify" ∷ f ∷ fs) ≡ Verify }
{}

/// `annotate` and plain words: these are the files, and the program with its annotations is asked for, without guesses.
pub fn plain_words_of_annotate_are_taken()
    ensures taken { (own f : List ℕ) (fs : List (List ℕ)) → AllPlain (f ∷ fs) → length (f ∷ fs) ≤ 2 ^ 64 - 1 → IsTaken (own ∷ codes "annotate" ∷ f ∷ fs) }
    ensures files { (own f : List ℕ) (fs : List (List ℕ)) → AllPlain (f ∷ fs) → files_in (own ∷ codes "annotate" ∷ f ∷ fs) ≡ f ∷ fs }
    ensures guess { (own f : List ℕ) (fs : List (List ℕ)) → AllPlain (f ∷ fs) → guess_in (own ∷ codes "annotate" ∷ f ∷ fs) ≡ false }
    ensures job { (own f : List ℕ) (fs : List (List ℕ)) → AllPlain (f ∷ fs) → job_in (own ∷ codes "annotate" ∷ f ∷ fs) ≡ Annotate }
{}

/// `certify` and plain words: these are the files, and a certificate is asked for.
pub fn plain_words_of_certify_are_taken()
    ensures taken { (own f : List ℕ) (fs : List (List ℕ)) → AllPlain (f ∷ fs) → length (f ∷ fs) ≤ 2 ^ 64 - 1 → IsTaken (own ∷ codes "certify" ∷ f ∷ fs) }
    ensures files { (own f : List ℕ) (fs : List (List ℕ)) → AllPlain (f ∷ fs) → files_in (own ∷ codes "certify" ∷ f ∷ fs) ≡ f ∷ fs }
    ensures job { (own f : List ℕ) (fs : List (List ℕ)) → AllPlain (f ∷ fs) → job_in (own ∷ codes "certify" ∷ f ∷ fs) ≡ Certify }
{}

/// `check --cert` with a plain word, and plain words: the first is the certificate's file, the others are the files, and it is asked
/// whether the certificate is one of them.
pub fn plain_words_of_check_are_taken()
    ensures taken { (own c f : List ℕ) (fs : List (List ℕ)) → Plain c → AllPlain (f ∷ fs) → length (f ∷ fs) ≤ 2 ^ 64 - 1 → IsTaken (own ∷ codes "check" ∷ codes "--cert" ∷ c ∷ f ∷ fs) }
    ensures cert { (own c f : List ℕ) (fs : List (List ℕ)) → Plain c → AllPlain (f ∷ fs) → cert_in (own ∷ codes "check" ∷ codes "--cert" ∷ c ∷ f ∷ fs) ≡ c }
    ensures files { (own c f : List ℕ) (fs : List (List ℕ)) → Plain c → AllPlain (f ∷ fs) → files_in (own ∷ codes "check" ∷ codes "--cert" ∷ c ∷ f ∷ fs) ≡ f ∷ fs }
    ensures job { (own c f : List ℕ) (fs : List (List ℕ)) → Plain c → AllPlain (f ∷ fs) → job_in (own ∷ codes "check" ∷ codes "--cert" ∷ c ∷ f ∷ fs) ≡ Check }
{}

/// `generate` and two numbers: the program of this seed and this size is asked for.
pub fn plain_words_of_generate_are_taken()
    ensures taken { (own s n : List ℕ) → IsSeed s → IsSize n → IsTaken (own ∷ codes "generate" ∷ s ∷ n ∷ []) }
    ensures job { (own s n : List ℕ) → job_in (own ∷ codes "generate" ∷ s ∷ n ∷ []) ≡ Generate }
    ensures seed { (own s n : List ℕ) → IsSeed s → IsSize n → seed_in (own ∷ codes "generate" ∷ s ∷ n ∷ []) ≡ digits_value 10 (without_leading_plus s) }
    ensures size { (own s n : List ℕ) → IsSeed s → IsSize n → size_in (own ∷ codes "generate" ∷ s ∷ n ∷ []) ≡ digits_value 10 (without_leading_plus n) }
{}

/// `bench` and two numbers: the lines on the program of this seed and this size are asked for, and the numbers of nodes, rows and workers
/// are the usual ones; neither guesses nor the history are asked for.
pub fn plain_words_of_bench_are_taken()
    ensures taken { (own s n : List ℕ) → IsSeed s → IsSize n → IsTaken (own ∷ codes "bench" ∷ s ∷ n ∷ []) }
    ensures job { (own s n : List ℕ) → job_in (own ∷ codes "bench" ∷ s ∷ n ∷ []) ≡ Bench }
    ensures seed { (own s n : List ℕ) → IsSeed s → IsSize n → seed_in (own ∷ codes "bench" ∷ s ∷ n ∷ []) ≡ digits_value 10 (without_leading_plus s) }
    ensures size { (own s n : List ℕ) → IsSeed s → IsSize n → size_in (own ∷ codes "bench" ∷ s ∷ n ∷ []) ≡ digits_value 10 (without_leading_plus n) }
    ensures nodes { (own s n : List ℕ) → IsSeed s → IsSize n → nodes_in (own ∷ codes "bench" ∷ s ∷ n ∷ []) ≡ 20000 }
    ensures rows { (own s n : List ℕ) → IsSeed s → IsSize n → most_rows_in (own ∷ codes "bench" ∷ s ∷ n ∷ []) ≡ 20000 }
    ensures workers { (own s n : List ℕ) → IsSeed s → IsSize n → workers_in (own ∷ codes "bench" ∷ s ∷ n ∷ []) ≡ 4 }
    ensures guess { (own s n : List ℕ) → IsSeed s → IsSize n → guess_in (own ∷ codes "bench" ∷ s ∷ n ∷ []) ≡ false }
    ensures history { (own s n : List ℕ) → IsSeed s → IsSize n → history_in (own ∷ codes "bench" ∷ s ∷ n ∷ []) ≡ false }
{}

/// `verify --nodes` with a number, and plain words.
pub fn plain_words_with_a_number_are_taken()
    ensures taken { (own n f : List ℕ) (fs : List (List ℕ)) → IsBudget n → AllPlain (f ∷ fs) → length (f ∷ fs) ≤ 2 ^ 64 - 1 → IsTaken (own ∷ codes "verify" ∷ codes "--nodes" ∷ n ∷ f ∷ fs) }
    ensures files { (own n f : List ℕ) (fs : List (List ℕ)) → IsBudget n → AllPlain (f ∷ fs) → files_in (own ∷ codes "verify" ∷ codes "--nodes" ∷ n ∷ f ∷ fs) ≡ f ∷ fs }
    ensures nodes { (own n f : List ℕ) (fs : List (List ℕ)) → IsBudget n → AllPlain (f ∷ fs) → nodes_in (own ∷ codes "verify" ∷ codes "--nodes" ∷ n ∷ f ∷ fs) ≡ digits_value 10 (without_leading_plus n) }
    ensures rows { (own n f : List ℕ) (fs : List (List ℕ)) → IsBudget n → AllPlain (f ∷ fs) → most_rows_in (own ∷ codes "verify" ∷ codes "--nodes" ∷ n ∷ f ∷ fs) ≡ 20000 }
    ensures workers { (own n f : List ℕ) (fs : List (List ℕ)) → IsBudget n → AllPlain (f ∷ fs) → workers_in (own ∷ codes "verify" ∷ codes "--nodes" ∷ n ∷ f ∷ fs) ≡ 4 }
    ensures guess { (own n f : List ℕ) (fs : List (List ℕ)) → IsBudget n → AllPlain (f ∷ fs) → guess_in (own ∷ codes "verify" ∷ codes "--nodes" ∷ n ∷ f ∷ fs) ≡ false }
    ensures history { (own n f : List ℕ) (fs : List (List ℕ)) → IsBudget n → AllPlain (f ∷ fs) → history_in (own ∷ codes "verify" ∷ codes "--nodes" ∷ n ∷ f ∷ fs) ≡ false }
{}

/// `verify --nodes` with a number, `--rows` with a number, and plain words.
pub fn plain_words_with_two_numbers_are_taken()
    ensures taken { (own n m f : List ℕ) (fs : List (List ℕ)) → IsBudget n → IsBudget m → AllPlain (f ∷ fs) → length (f ∷ fs) ≤ 2 ^ 64 - 1 → IsTaken (own ∷ codes "verify" ∷ codes "--nodes" ∷ n ∷ codes "--rows" ∷ m ∷ f ∷ fs) }
    ensures files { (own n m f : List ℕ) (fs : List (List ℕ)) → IsBudget n → IsBudget m → AllPlain (f ∷ fs) → files_in (own ∷ codes "verify" ∷ codes "--nodes" ∷ n ∷ codes "--rows" ∷ m ∷ f ∷ fs) ≡ f ∷ fs }
    ensures nodes { (own n m f : List ℕ) (fs : List (List ℕ)) → IsBudget n → IsBudget m → AllPlain (f ∷ fs) → nodes_in (own ∷ codes "verify" ∷ codes "--nodes" ∷ n ∷ codes "--rows" ∷ m ∷ f ∷ fs) ≡ digits_value 10 (without_leading_plus n) }
    ensures rows { (own n m f : List ℕ) (fs : List (List ℕ)) → IsBudget n → IsBudget m → AllPlain (f ∷ fs) → most_rows_in (own ∷ codes "verify" ∷ codes "--nodes" ∷ n ∷ codes "--rows" ∷ m ∷ f ∷ fs) ≡ digits_value 10 (without_leading_plus m) }
    ensures workers { (own n m f : List ℕ) (fs : List (List ℕ)) → IsBudget n → IsBudget m → AllPlain (f ∷ fs) → workers_in (own ∷ codes "verify" ∷ codes "--nodes" ∷ n ∷ codes "--rows" ∷ m ∷ f ∷ fs) ≡ 4 }
    ensures guess { (own n m f : List ℕ) (fs : List (List ℕ)) → IsBudget n → IsBudget m → AllPlain (f ∷ fs) → guess_in (own ∷ codes "verify" ∷ codes "--nodes" ∷ n ∷ codes "--rows" ∷ m ∷ f ∷ fs) ≡ false }
    ensures history { (own n m f : List ℕ) (fs : List (List ℕ)) → IsBudget n → IsBudget m → AllPlain (f ∷ fs) → history_in (own ∷ codes "verify" ∷ codes "--nodes" ∷ n ∷ codes "--rows" ∷ m ∷ f ∷ fs) ≡ false }
{}

/// `verify --workers` with a number, and plain words.
pub fn plain_words_with_workers_are_taken()
    ensures taken { (own n f : List ℕ) (fs : List (List ℕ)) → IsWorkers n → AllPlain (f ∷ fs) → length (f ∷ fs) ≤ 2 ^ 64 - 1 → IsTaken (own ∷ codes "verify" ∷ codes "--workers" ∷ n ∷ f ∷ fs) }
    ensures files { (own n f : List ℕ) (fs : List (List ℕ)) → IsWorkers n → AllPlain (f ∷ fs) → files_in (own ∷ codes "verify" ∷ codes "--workers" ∷ n ∷ f ∷ fs) ≡ f ∷ fs }
    ensures nodes { (own n f : List ℕ) (fs : List (List ℕ)) → IsWorkers n → AllPlain (f ∷ fs) → nodes_in (own ∷ codes "verify" ∷ codes "--workers" ∷ n ∷ f ∷ fs) ≡ 20000 }
    ensures rows { (own n f : List ℕ) (fs : List (List ℕ)) → IsWorkers n → AllPlain (f ∷ fs) → most_rows_in (own ∷ codes "verify" ∷ codes "--workers" ∷ n ∷ f ∷ fs) ≡ 20000 }
    ensures workers { (own n f : List ℕ) (fs : List (List ℕ)) → IsWorkers n → AllPlain (f ∷ fs) → workers_in (own ∷ codes "verify" ∷ codes "--workers" ∷ n ∷ f ∷ fs) ≡ digits_value 10 (without_leading_plus n) }
    ensures guess { (own n f : List ℕ) (fs : List (List ℕ)) → IsWorkers n → AllPlain (f ∷ fs) → guess_in (own ∷ codes "verify" ∷ codes "--workers" ∷ n ∷ f ∷ fs) ≡ false }
    ensures history { (own n f : List ℕ) (fs : List (List ℕ)) → IsWorkers n → AllPlain (f ∷ fs) → history_in (own ∷ codes "verify" ∷ codes "--workers" ∷ n ∷ f ∷ fs) ≡ false }
{}
