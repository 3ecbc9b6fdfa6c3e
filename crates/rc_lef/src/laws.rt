//! What holds of LEF. Nothing is computed here.

ghost use Rattle.rc_lef.specs.File.{AcceptsFiles, FilesLeaveOne};

/// A text is accepted exactly where its tokens are blocks and statements of LEF, up to the file's end.
pub fn accepted_are_files()
    ensures { AcceptsFiles }
{}

/// What a file leaves is one technology.
pub fn files_leave_one()
    ensures { FilesLeaveOne }
{}
